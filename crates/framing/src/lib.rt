// The words around the channels: block header, parameters, trailer, event header, trigger time, an event's scalers, module
// empty and filler.
// One module a record type: its tag, its largest fields, and how it is built, taken apart and known.
#![tactic(auto, unfolding(crate::specs::Words::all_open))]

pub mod block_header;
pub mod empty;
pub mod event_header;
pub mod filler;
pub mod parameters;
pub mod scaler;
pub mod scalers;
pub mod trailer;
pub mod trigger_time;
pub mod trigger_time_high;
