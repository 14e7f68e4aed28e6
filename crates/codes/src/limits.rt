// The limits of document 01, 'The code table', once as consts: specs/Limits.antt has them by name.

pub const FEWEST_OUTPUTS: u32 = 2;

pub const MOST_OUTPUTS: u32 = 4;

pub const LEAST_MEMORY: u32 = 1;

pub const MOST_MEMORY: u32 = 16;

pub const SHORTEST_MESSAGE: usize = 1;

pub const LONGEST_MESSAGE: usize = 200;

// The branches of the longest block, and its symbols.
pub const MOST_BRANCHES: usize = LONGEST_MESSAGE + MOST_MEMORY as usize;

pub const LONGEST_BLOCK: usize = MOST_OUTPUTS as usize * MOST_BRANCHES;
