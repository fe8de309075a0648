//! What a floor is, when it is lawful, and that the floors of `Placed`, of `Windows` and of two lawful bounds together are.
#![tactic(auto)]
