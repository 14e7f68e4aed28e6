// What a code and a block make of the trellis: weights and hard bits of symbols, the block as plain numbers, the machine that a code is
// made into, the branches, and the walk along a message's path.
#![tactic(auto)]

pub mod block;
pub mod branches;
pub mod machine;
pub mod symbols;
pub mod view;
pub mod walk;
