// The block and the sheets that are tried, byte by byte.

// Case 4's block.
pub static BLOCK: [i8; 6] = [3, -5, -2, 1, -4, -6];

// Its honest sheet.
pub static SHEET: [u8; 47] = [
    0x2B, 0, 0, 0, 1, 1, 1, 0, 3, 0, 0, 0, 4, 0, 0x80, 0, 0, 0, 0, 0, 0, 0, 0, 1, 0, 2, 0, 3, 0, 0,
    0, 2, 0, 1, 0, 3, 0, 0, 0, 3, 0, 0, 0, 3, 0, 0, 0,
];

// The same with an entry more: node (1, 0), reachable, with the largest cost that there is.
pub static FAR: [u8; 55] = [
    0x33, 0, 0, 0, 1, 1, 1, 0, 3, 0, 0, 0, 5, 0, 0x80, 0, 0, 0, 0, 0, 0, 0, 0, 1, 0, 0, 0, 255,
    255, 255, 255, 1, 0, 2, 0, 3, 0, 0, 0, 2, 0, 1, 0, 3, 0, 0, 0, 3, 0, 0, 0, 3, 0, 0, 0,
];

// For six zeros, where both messages have metric 0: all six nodes, each with cost 0, and message 1.
pub static TIED: [u8; 63] = [
    0x3B, 0, 0, 0, 1, 1, 1, 0, 0, 0, 0, 0, 6, 0, 0x80, 0, 0, 0, 0, 0, 0, 0, 0, 1, 0, 0, 0, 0, 0, 0,
    0, 1, 0, 2, 0, 0, 0, 0, 0, 2, 0, 0, 0, 0, 0, 0, 0, 2, 0, 1, 0, 0, 0, 0, 0, 3, 0, 0, 0, 0, 0, 0,
    0,
];
