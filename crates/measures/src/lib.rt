// What is measured of a pulse: integral, time and pedestal. One module a record type.
#![tactic(auto, unfolding(crate::specs::Words::all_open))]

pub mod integral;
pub mod pedestal;
pub mod time;
