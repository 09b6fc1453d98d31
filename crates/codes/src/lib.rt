// The operations that a statement is read into. An operation is one number: its code below CODES, and its argument above.
// The codes below EFFECTS take values off a stack and put one on; the others change the world and leave no values.
// Numbers and no enum: crates operation, effect and statement promise an answer for every number, and the lists that are lent hold numbers.
#![tactic(auto)]

ghost use Rattle.std.specs.Prelude.{◌≤◌, ◌<◌, ◌≡◌};
ghost use Rattle.codes.specs.Codes.{codes, op};

pub const CODES: u32 = 64;

pub const EFFECTS: u32 = 16;

// a constant: its value
pub const CONSTANT: u32 = 0;

// a variable: 0 for A to 25 for Z
pub const VARIABLE: u32 = 1;

// STAT
pub const STAT: u32 = 2;

// TOP
pub const TOP: u32 = 3;

// "@": the byte at the value on top
pub const BYTE: u32 = 4;

// NOT
pub const NOT: u32 = 5;

// a leading minus: a difference from 0
pub const NEGATE: u32 = 6;

// MOD
pub const MOD: u32 = 7;

// an operator, by its number
pub const OPERATOR: u32 = 8;

// an assignment to a variable: which one
pub const SET_VARIABLE: u32 = 16;

// to STAT
pub const SET_STAT: u32 = 17;

// to the byte at an address
pub const SET_BYTE: u32 = 18;

// a string goes to an address: how many bytes with its CR, which the operations behind this one have
pub const STORE_STRING: u32 = 19;

// one of those bytes
pub const STRING_BYTE: u32 = 20;

// a string goes from an address to another
pub const COPY_STRING: u32 = 21;

// GOTO
pub const GOTO: u32 = 22;

// GOSUB
pub const GOSUB: u32 = 23;

// RETURN
pub const RETURN: u32 = 24;

// PRINT asks for room: how many bytes
pub const PRINT_ROOM: u32 = 25;

// and writes a byte of a string
pub const PRINT_BYTE: u32 = 26;

// a string in memory
pub const PRINT_STRING: u32 = 27;

// a number
pub const PRINT_NUMBER: u32 = 28;

// CR LF
pub const PRINT_END: u32 = 29;

// IF: on to the next operation, or to the next record
pub const IF: u32 = 30;

// DO
pub const DO: u32 = 31;

// UNTIL
pub const UNTIL: u32 = 32;

// FOR: its variable
pub const FOR: u32 = 33;

// NEXT: its variable
pub const NEXT: u32 = 34;

// INPUT: how many variables, which the operations behind this one have
pub const INPUT: u32 = 35;

// one of those variables
pub const INPUT_VARIABLE: u32 = 36;

// INPUT of a string
pub const INPUT_STRING: u32 = 37;

// END
pub const END: u32 = 38;

// The operators, by their index in the grammar's lists: * / AND, + - OR, = < > <= >= <>
// Numbers and no enum, as the codes are: an operator is the argument of an operation, one number in a buffer of fixed size, so that an enum
// would be made of it at each step only to be matched once.
pub const OPERATOR_TIMES: u8 = 0;

pub const OPERATOR_DIVIDE: u8 = 1;

pub const OPERATOR_AND: u8 = 2;

pub const OPERATOR_PLUS: u8 = 3;

pub const OPERATOR_MINUS: u8 = 4;

pub const OPERATOR_OR: u8 = 5;

pub const OPERATOR_EQUAL: u8 = 6;

pub const OPERATOR_LESS: u8 = 7;

pub const OPERATOR_GREATER: u8 = 8;

pub const OPERATOR_AT_MOST: u8 = 9;

pub const OPERATOR_AT_LEAST: u8 = 10;

pub const OPERATOR_UNEQUAL: u8 = 11;

// How many operators there are.
pub const OPERATORS: u8 = 12;

// The operation of a code with an argument. Without an argument it is the code.
pub fn operation(code: u32, argument: u32) -> u32
    requires { (code < codes) × (argument ≤ 65536) }
    ensures { result ≡ op code argument }
{
    argument * CODES + code
}
