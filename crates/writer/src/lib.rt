// The decoder that also writes the honest sheet of what it answers.
#![tactic(auto)]

mod entries;
pub mod seen;
pub mod writer;
