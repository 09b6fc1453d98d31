// The column of a line that was refused: the length of its longest front part with which a line that has a reading begins.
#![tactic(auto)]

ghost use Rattle.std.specs.Prelude.{◌+◌, ◌-◌, ◌*◌, ◌≤◌, ◌<◌, ◌≡◌, ◌&&◌, ◌++◌, length, take, drop};
ghost use Rattle.nibl.specs.found.Column.{line_run, is_alive, all_taken, ends_with, begun_by, begun_in, is_front, column_down, column_of};
ghost use Rattle.nibl.specs.Typing.{limit};
ghost use Rattle.word.specs.Found.{spellings_of, longest_keyword};
ghost use Rattle.column.specs.Runs.{line_symbol};
ghost use Rattle.column.specs.Fronts.{spelled_all, most, Spare, Kept, ReachIs, last_tried};

use nibl::LIMIT;
use run::run;

mod rules;
mod run;

// A text may end within a word: a keyword or a command, or one of these, spelled in the same way. Of a hex constant "#" and a digit are enough.
const OTHERS: [u64; 19] = [
    0x3d3c, // <=
    0x3d3e, // >=
    0x3e3c, // <>
    0x3023, // #0
    0x3123, // #1
    0x3223, // #2
    0x3323, // #3
    0x3423, // #4
    0x3523, // #5
    0x3623, // #6
    0x3723, // #7
    0x3823, // #8
    0x3923, // #9
    0x4123, // #A
    0x4223, // #B
    0x4323, // #C
    0x4423, // #D
    0x4523, // #E
    0x4623, // #F
];

// The most that is written behind a front part to end the word that it has begun: all but a first byte of the longest.
const COMPLETION: usize = 5;

// How much may come: a word takes a byte at least, and leaves at most three more of it.
const DEPTH: usize = 3 * (LIMIT + COMPLETION) + 1;

// Whether all words of a text are taken, as a line or as a command.
fn is_taken(text: &[u8], commands: bool, stack: &mut [u8]) -> bool
    requires { 3 * length text.now < length stack.old }
    ensures answer { result ≡ is_alive (line_run (spellings_of commands) (line_symbol commands) text.now) }
    ensures size { length stack.new ≡ length stack.old }
{
    run(text, commands, stack).is_ok()
}

// As a line by the keywords, or by a command at its front.
fn all_taken(text: &[u8], stack: &mut [u8]) -> bool
    requires { 3 * length text.now < length stack.old }
    ensures answer { result ≡ all_taken text.now }
    ensures size { length stack.new ≡ length stack.old }
{
    is_taken(text, false, stack) || is_taken(text, true, stack)
}

// Whether the first n bytes of a text end with the first i of a spelling, and with the others behind them all words are taken.
fn begun_at(text: &mut [u8], n: usize, z: &[u8], i: usize, stack: &mut [u8]) -> bool
    requires { Spare text.old n stack.old × (i ≤ length z.now) × (length z.now ≤ i + most) }
    ensures answer { result ≡ (ends_with (take i z.now) (take n text.old) && all_taken (take n text.old ++ drop i z.now)) }
    ensures text { Kept text.old n text.new }
    ensures size { length stack.new ≡ length stack.old }
{
    let (begun, rest) = z.split_at(i);
    if !text[..n].ends_with(begun) {
        return false;
    }
    let to = n + rest.len();
    text[n..to].copy_from_slice(rest);
    all_taken(&text[..to], stack)
}

// The same for as much of a spelling as it may be: from all but its last byte down to its first.
fn begun_by(text: &mut [u8], n: usize, z: &[u8], stack: &mut [u8]) -> bool
    requires { Spare text.old n stack.old × (length z.now ≤ longest_keyword) }
    ensures answer { result ≡ begun_by (take n text.old) z.now (length z.now - 1) }
    ensures text { Kept text.old n text.new }
    ensures size { length stack.new ≡ length stack.old }
{
    for i in (1..z.len()).rev() {
        if begun_at(text, n, z, i, stack) {
            return true;
        }
    }
    false
}

// The same for each of a list of spellings, each one number.
fn begun_in(text: &mut [u8], n: usize, keys: &[u64], stack: &mut [u8]) -> bool
    requires { Spare text.old n stack.old }
    ensures answer { result ≡ begun_in (spelled_all keys.now) (take n text.old) }
    ensures text { Kept text.old n text.new }
    ensures size { length stack.new ≡ length stack.old }
{
    for key in keys {
        let mut room = [0u8; COMPLETION + 1];
        let to = word::spell(*key, &mut room);
        if begun_by(text, n, &room[..to], stack) {
            return true;
        }
    }
    false
}

// Whether a line that has a reading begins with the first n bytes of a text.
fn is_front(text: &mut [u8], n: usize, stack: &mut [u8]) -> bool
    requires { Spare text.old n stack.old }
    ensures answer { result ≡ is_front (take n text.old) }
    ensures text { Kept text.old n text.new }
    ensures size { length stack.new ≡ length stack.old }
{
    all_taken(&text[..n], stack)
        || begun_in(text, n, &word::KEYWORDS, stack)
        || begun_in(text, n, &word::COMMANDS, stack)
        || begun_in(text, n, &OTHERS, stack)
}

// The longest front of at most so many bytes. A front part of a front is a front: so by halves, in a room into which the text is laid anew
// for each, since the end of a word may have been written behind the one before. A loop by hand: what is halved is no slice.
fn longest_front(text: &[u8], room: &mut [u8], from: usize, stack: &mut [u8]) -> usize
    requires { Spare room.old (length text.now) stack.old × (from ≤ length text.now) }
    ensures { result ≡ column_down from text.now }
{
    let mut lo = 0;
    let mut hi = from;
    while lo < hi {
        let n = hi - (hi - lo) / 2;
        room[..text.len()].copy_from_slice(text);
        if is_front(room, n, stack) {
            lo = n;
        } else {
            hi = n - 1;
        }
    }
    lo
}

// Where the text could not go on; its end where it could.
fn reach(text: &[u8], commands: bool, stack: &mut [u8]) -> usize
    requires { 3 * length text.now < length stack.old }
    ensures answer { ReachIs text.now (line_run (spellings_of commands) (line_symbol commands) text.now) result }
    ensures size { length stack.new ≡ length stack.old }
{
    run(text, commands, stack).err().unwrap_or(text.len())
}

// The longest front part that need be tried: none is a front from the fifth byte on behind the one at which the line could not go on.
fn last_tried(text: &[u8], stack: &mut [u8]) -> usize
    requires { 3 * length text.now < length stack.old }
    ensures answer { result ≡ last_tried text.now }
    ensures size { length stack.new ≡ length stack.old }
{
    let far = reach(text, false, stack).max(reach(text, true, stack));
    text.len().min(far + 4)
}

// The column of any line that fits. It is looked for only when a line was refused.
pub fn column_of(text: &[u8]) -> usize
    requires { length text.now ≤ limit }
    ensures { result ≡ column_of text.now }
{
    let mut stack = [0u8; DEPTH];
    let mut room = [0u8; LIMIT + COMPLETION];
    let from = last_tried(text, &mut stack);
    longest_front(text, &mut room, from, &mut stack)
}
