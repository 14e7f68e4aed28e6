// The code table, the register and the encoder: document 01, 'The code table'.
#![tactic(auto)]

pub mod encoder;
pub mod limits;
pub mod register;
pub mod table;
