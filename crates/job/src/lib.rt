//! A job for the planner: kinds of unit, operations, limits, the frame of each operation, and the job file.
#![tactic(auto)]

mod framed;

pub use framed::Job;
pub use rules::edit::Edit;
pub use rules::frame::Frame;
pub use rules::kind::{Figures, Kind};
pub use rules::operation::Operation;
pub use rules::refusal::{FileRefusal, Refusal};
