// Text: fields and numbers, read and printed, and bytes put into lent memory.
#![tactic(auto)]

pub mod fields;
pub mod lengths;
pub mod put;

// The byte that parts fields.
pub const TAB: u8 = 9;

// The byte that ends lines.
pub const LF: u8 = 10;
