//! Bounds: lower bounds on the units of a kind that plans need, lawful by their type.
#![tactic(auto)]

mod bound;
mod greater;
mod placed;
mod windows_bound;

pub use bound::Bound;
pub use greater::Greater;
pub use placed::Placed;
pub use windows_bound::Windows;
