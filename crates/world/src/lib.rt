// The parts of the world that statements change, each by itself: a byte or a string in memory; the three stacks, a variable,
// and where the run goes on; the input, when a reply is asked for. What a function is not lent it leaves alone.
#![tactic(auto)]

pub mod input;
pub mod jump;
pub mod memory;
