// A text is taken word by word, with a stack of what may come.
ghost use Rattle.std.specs.Prelude.{◌+◌, ◌-◌, ◌*◌, ◌≤◌, ◌<◌, ◌≡◌, length, drop};
ghost use Rattle.nibl.specs.found.Column.{is_remark, remark_at, line_run};
ghost use Rattle.word.specs.Found.{WordIs, spellings_of};
ghost use Rattle.column.specs.Runs.{VerdictIs, NextIs, wordless, run_by, line_symbol, Room};

use crate::rules::{self, push, seek};
use word::{Cursor, Word};

// `Ok` if all of a text's words were taken; else where it could not go on.
pub type Verdict = Result<(), usize>;

// What stands at a position: nothing but spaces; no word, and where none could go on; or a word, as the rules know it, and where
// it ends.
#[derive(Clone, Copy)]
enum Next {
    End,
    Wrong(usize),
    Got(u8, usize),
}

fn word_in(text: &[u8], at: usize, commands: bool) -> Word
    ensures { WordIs (spellings_of commands) text.now at result }
{
    if commands {
        word::command_at(text, Cursor { at })
    } else {
        word::word_at(text, Cursor { at })
    }
}

fn look(text: &[u8], at: usize, commands: bool) -> Next
    ensures { NextIs (spellings_of commands) text.now at result }
{
    match word_in(text, at, commands) {
        Word::Variable(_, c) => Next::Got(rules::NAME, c.at),
        Word::Decimal(_, c) => Next::Got(rules::DECIMAL, c.at),
        Word::Hex(_, c) => Next::Got(rules::HEX, c.at),
        Word::Text(_, _, c) => Next::Got(rules::TEXT, c.at),
        Word::Sign(k, c) => Next::Got(k, c.at),
        Word::End => Next::End,
        Word::Wrong(c) => Next::Wrong(c.at),
    }
}

// What follows REM: the rest of the text.
fn remark(text: &[u8], at: usize) -> Verdict
    requires { at ≤ length text.now }
    ensures { VerdictIs text.now (remark_at (drop at text.now)) result }
{
    match text[at..].iter().position(|b| !letter::is_text(*b)) {
        Some(n) => Err(at + n),
        None => Ok(()),
    }
}

fn is_remark(stack: &[u8], top: usize) -> bool
    ensures { result ≡ is_remark (drop top stack.now) }
{
    stack.get(top) == Some(&rules::REMARK)
}

// Where no word stands and none could go on at `end`: a string may be open there, if one may come.
fn without_word(text: &[u8], at: usize, end: usize, stack: &[u8], top: usize) -> Verdict
    requires { (end ≤ length text.now) × (top ≤ length stack.now) }
    ensures { VerdictIs text.now (wordless (length text.now - end) (drop top stack.now) (drop at text.now)) result }
{
    if end == text.len()
        && word::first_at(text, Cursor { at }) == nibl::QUOTE
        && seek(stack, top, rules::TEXT).is_some()
    {
        Ok(())
    } else {
        Err(end)
    }
}

// The words of a text one after the other, from a position on. Only the first may be a command.
fn run_from(text: &[u8], from: usize, commands: bool, stack: &mut [u8], bottom: usize) -> Verdict
    requires { Room text.now from stack.old bottom }
    ensures answer { VerdictIs text.now (run_by (spellings_of commands) (drop bottom stack.old) (drop from text.now)) result }
    ensures size { length stack.new ≡ length stack.old }
{
    let mut at = from;
    let mut by = commands;
    let mut top = bottom;
    while !is_remark(stack, top) {
        match look(text, at, by) {
            Next::End => return Ok(()),
            Next::Wrong(end) => return without_word(text, at, end, stack, top),
            Next::Got(k, end) => {
                let Some(turn) = seek(stack, top, k) else {
                    return Err(end);
                };
                top = push(stack, turn.at + 1, turn.next);
                at = end;
            }
        }
        by = false;
    }
    remark(text, at)
}

fn line_symbol(commands: bool) -> u8
    ensures { result ≡ line_symbol commands }
{
    if commands {
        rules::TYPED_COMMAND
    } else {
        rules::TYPED_LINE
    }
}

// The words of a whole text, as a line or as a command.
pub fn run(text: &[u8], commands: bool, stack: &mut [u8]) -> Verdict
    requires { 3 * length text.now < length stack.old }
    ensures answer { VerdictIs text.now (line_run (spellings_of commands) (line_symbol commands) text.now) result }
    ensures size { length stack.new ≡ length stack.old }
{
    let top = stack.len() - 1;
    stack[top] = line_symbol(commands);
    run_from(text, 0, commands, stack, top)
}
