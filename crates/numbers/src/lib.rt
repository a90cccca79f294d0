// Settings and a state as the numbers that the host lends: loaded, and stored.
#![tactic(auto)]

pub mod load;
pub mod store;
