//! What a scheme of cost is, and when it is lawful; the costs of plans under any; what `Area` and `Ranked` mean, and that they are lawful.
#![tactic(auto)]

pub mod rank;
