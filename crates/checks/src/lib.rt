//! Tests of the job layer on examples: what each call answers, and what the job then holds.
#![tactic(auto)]

#[cfg(test)]
mod calls;
#[cfg(test)]
mod files;
#[cfg(test)]
mod frames;
#[cfg(test)]
mod held;
