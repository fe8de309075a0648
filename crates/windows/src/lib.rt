//! The floor of Windows: operations that must be busy within a few steps need so many units there.
#![tactic(auto)]

mod floor;
mod gather;
mod stay;
mod stays;
mod tally;
mod timing;

pub use floor::windows_floor;
