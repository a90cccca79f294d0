// Samples as they came: a window, a pulse's data set, and the pairs behind both. One module a record type.
#![tactic(auto, unfolding(crate::specs::Words::all_open))]

pub mod pair;
pub mod pulse_raw;
pub mod window;
