//! What plans cost: schemes of cost, and the cost of a plan under any of them.
#![tactic(auto)]

mod area;
mod ceiling;
mod ranked;
mod scheme;
mod total;

pub use area::Area;
pub use ranked::Ranked;
pub use scheme::Scheme;
pub use schemes::rank::Rank;
pub use total::plan_cost;
