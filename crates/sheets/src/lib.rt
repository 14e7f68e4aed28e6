// The decision sheet: its bytes put and read, and the check.
#![tactic(auto)]

mod bytes;
pub mod check;
mod claim;
mod entries;
mod form;
pub mod put;
pub mod seen;
