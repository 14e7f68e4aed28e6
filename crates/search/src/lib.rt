// The search in lent memory, and the decoder: document 01, 'Node order'.
#![tactic(auto)]

pub mod decoder;
mod run;
pub mod seen;
mod step;
pub mod trace;
