//! Tests of plans, costs and bounds on examples.
#![tactic(auto)]

#[cfg(test)]
mod bounds;
#[cfg(test)]
mod costs;
#[cfg(test)]
mod jobs;
#[cfg(test)]
mod plans;
