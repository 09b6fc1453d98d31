// The classes of a byte, by number: numbers and no enum, since the table is to be one of 256 class numbers (docs/DECISIONS.md, Forms).
pub const DROPPED: u8 = 0;

pub const CR: u8 = 1;

pub const ERASE: u8 = 2;

pub const DISCARD: u8 = 3;

pub const SPACE: u8 = 4;

pub const DIGIT: u8 = 5;

pub const CAPITAL: u8 = 6;

pub const QUOTE: u8 = 7;

pub const OTHER: u8 = 8;
