// Document 02, "Scaler words": what is counted since a set up is what its frames and events hold. No code.
#![tactic(auto)]
