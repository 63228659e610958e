// The layout of the card, R53: its marks, where each number stands in its record, counted from the mark on, and how long each record is.

// The clock.
pub const CK: [u8; 2] = *b"CK";

// A slot that runs a line which renews.
pub const TB: [u8; 2] = *b"TB";

// A slot that runs a line which leaves.
pub const TL: [u8; 2] = *b"TL";

// R58: as TB, in the order of the third generation.
pub const TA: [u8; 2] = *b"TA";

// A slot that holds nothing.
pub const TF: [u8; 2] = *b"TF";

// The new line.
pub const RQ: [u8; 2] = *b"RQ";

// The clock, behind CK.
pub const CLOCK_AT: usize = 2;

// C of a line, and Cn behind RQ.
pub const NEED_AT: usize = 2;

// T of a line, and Tn.
pub const PERIOD_AT: usize = 4;

// T' of a line.
pub const STRETCHED_AT: usize = 6;

// The two last numbers of a line, whose order is the mark's.
pub const FOURTH_AT: usize = 8;

pub const FIFTH_AT: usize = 10;

// A mark, and so TF.
pub const MARK_LENGTH: usize = 2;

// CK.
pub const CLOCK_LENGTH: usize = 10;

// A slot's record with a line.
pub const LINE_LENGTH: usize = 12;

// RQ.
pub const LAST_LENGTH: usize = 6;
