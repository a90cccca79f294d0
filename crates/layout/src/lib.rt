// The layout of a block: its grammar and what is known of reading it. No code.
#![tactic(auto)]
