// The devices, the event catalogues and the checks of a request.
#![tactic(auto)]

pub mod askings;
pub mod bits;
pub mod catalogue;
mod cbox_events;
pub mod check;
pub mod devices;
pub mod faults;
pub mod fields;
mod mask_rules;
pub mod refusals;
pub mod rules;
mod sbox_events;
pub mod set;
