// The numbers of signs: a keyword's is KEYWORD and its index in the list of keywords, a command's KEYWORD and its
// index in that of commands, a pair's is one of 1 to 3, and a symbol's is its byte. They are no enum: readers promise an answer for any
// number that is asked for (`past_sign` of crate relation), and a word's number is the definition's.
pub const KEYWORD: u8 = 128;

pub const LET: u8 = 128;

pub const GO: u8 = 129;

pub const TO: u8 = 130;

pub const SUB: u8 = 131;

pub const GOTO: u8 = 132;

pub const GOSUB: u8 = 133;

pub const RETURN: u8 = 134;

pub const PR: u8 = 135;

pub const PRINT: u8 = 136;

pub const IF: u8 = 137;

pub const THEN: u8 = 138;

pub const DO: u8 = 139;

pub const UNTIL: u8 = 140;

pub const FOR: u8 = 141;

pub const STEP: u8 = 142;

pub const NEXT: u8 = 143;

pub const INPUT: u8 = 144;

pub const REM: u8 = 145;

pub const END: u8 = 146;

pub const STAT: u8 = 147;

pub const TOP: u8 = 148;

pub const MOD: u8 = 149;

pub const AND: u8 = 150;

pub const OR: u8 = 151;

pub const NOT: u8 = 152;

// Commands stand where keywords do not.
pub const NEW: u8 = 128;

pub const CLEAR: u8 = 129;

pub const LIST: u8 = 130;

pub const RUN: u8 = 131;

// <= >= <>
pub const AT_MOST: u8 = 1;

pub const AT_LEAST: u8 = 2;

pub const UNEQUAL: u8 = 3;

// $ ( ) * + , - / : ; < = > @
pub const DOLLAR: u8 = 36;

pub const OPEN: u8 = 40;

pub const CLOSE: u8 = 41;

pub const TIMES: u8 = 42;

pub const PLUS: u8 = 43;

pub const COMMA: u8 = 44;

pub const MINUS: u8 = nibl::MINUS;

pub const DIVIDE: u8 = 47;

pub const COLON: u8 = nibl::COLON;

pub const SEMICOLON: u8 = 59;

pub const LESS: u8 = 60;

pub const EQUAL: u8 = 61;

pub const GREATER: u8 = 62;

pub const AT: u8 = 64;
