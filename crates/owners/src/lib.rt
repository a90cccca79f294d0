// Demand 3: posts in any order, and a channel's words its own. No code.
#![tactic(auto)]
