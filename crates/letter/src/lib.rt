// The class of each byte value, and gathering a typed line.
#![tactic(auto)]

ghost use Rattle.std.specs.Prelude.{◌-◌, ◌≤◌, ◌<◌, ◌≡◌, ◌++◌, eqb, length, take, drop, replicate};
ghost use Rattle.nibl.specs.Bytes.{class_of, class_quote, class_other, is_space, is_digit, is_capital, is_hex_digit, is_text, is_quotable};
ghost use Rattle.nibl.specs.Typing.{keep, gather as gathered};
ghost use Rattle.letter.specs.Table.{Classifies};
ghost use Rattle.letter.specs.Slots.{answer, held, kept_in};

pub mod class;

// One letter for each class, so that the table is read by rows.
use class::{
    CAPITAL as C, CR as R, DIGIT as N, DISCARD as X, DROPPED as D, ERASE as E, OTHER as O,
    QUOTE as Q, SPACE as S,
};

// The class of each byte value, sixteen in a row.
#[rattlefmt::skip]
const CLASS: [u8; 256] = [
    D, O, O, O, O, O, O, O, O, O, D, O, O, R, O, O,
    O, O, O, O, O, X, O, O, O, O, O, O, O, O, O, O,
    S, O, Q, O, O, O, O, O, O, O, O, O, O, O, O, O,
    N, N, N, N, N, N, N, N, N, N, O, O, O, O, O, O,
    O, C, C, C, C, C, C, C, C, C, C, C, C, C, C, C,
    C, C, C, C, C, C, C, C, C, C, C, O, O, O, O, E,
    O, O, O, O, O, O, O, O, O, O, O, O, O, O, O, O,
    O, O, O, O, O, O, O, O, O, O, O, O, O, O, O, O,
    O, O, O, O, O, O, O, O, O, O, O, O, O, O, O, O,
    O, O, O, O, O, O, O, O, O, O, O, O, O, O, O, O,
    O, O, O, O, O, O, O, O, O, O, O, O, O, O, O, O,
    O, O, O, O, O, O, O, O, O, O, O, O, O, O, O, O,
    O, O, O, O, O, O, O, O, O, O, O, O, O, O, O, O,
    O, O, O, O, O, O, O, O, O, O, O, O, O, O, O, O,
    O, O, O, O, O, O, O, O, O, O, O, O, O, O, O, O,
    O, O, O, O, O, O, O, O, O, O, O, O, O, O, O, O,
];

// The first capital.
pub const A: u8 = b'A';

// The class of a byte, read from the table. A constant array is laid out anew at each use: who gathers a line does that once.
fn class_in(table: &[u8; 256], b: u8) -> u8
    requires { Classifies table.now }
    ensures { result ≡ class_of b }
{
    table[usize::from(b)]
}

// The class of a byte below the digits, by comparisons.
fn low_class(b: u8) -> u8
    requires { b < 48 }
    ensures { (result ≡ class_of b) × (result ≤ class_other) }
{
    match b {
        nibl::SPACE => class::SPACE,
        nibl::QUOTE => class::QUOTE,
        nibl::CR => class::CR,
        0 | nibl::LF => class::DROPPED,
        21 => class::DISCARD,
        _ => class::OTHER,
    }
}

// The same class by comparisons, for readers: they look at every byte of a page, one word at a time. The ranges go upward: in one
// match with the digits first and each other byte by itself the words of a text took 1.2 times as long.
pub fn class_by_range(b: u8) -> u8
    ensures { (result ≡ class_of b) × (result ≤ class_other) }
{
    match b {
        ..b'0' => low_class(b),
        ..=b'9' => class::DIGIT,
        ..b'A' => class::OTHER,
        ..=b'Z' => class::CAPITAL,
        b'_' => class::ERASE,
        _ => class::OTHER,
    }
}

pub fn is_space(b: u8) -> bool
    ensures { result ≡ is_space b }
{
    class_by_range(b) == class::SPACE
}

pub fn is_digit(b: u8) -> bool
    ensures { result ≡ is_digit b }
{
    class_by_range(b) == class::DIGIT
}

pub fn is_capital(b: u8) -> bool
    ensures { result ≡ is_capital b }
{
    class_by_range(b) == class::CAPITAL
}

pub fn is_quote(b: u8) -> bool
    ensures { result ≡ eqb (class_of b) class_quote }
{
    class_by_range(b) == class::QUOTE
}

pub fn is_hex_digit(b: u8) -> bool
    ensures { result ≡ is_hex_digit b }
{
    is_digit(b) || matches!(b, A..=b'F')
}

// A byte that may stand in a page's text.
pub fn is_text(b: u8) -> bool
    ensures { result ≡ is_text b }
{
    class_by_range(b) != class::ERASE && matches!(b, b' '..=b'~')
}

// A byte that may stand between quotes.
pub fn is_quotable(b: u8) -> bool
    ensures { result ≡ is_quotable b }
{
    !is_quote(b) && is_text(b)
}

// What gathering found. Positions are those of the input.
#[derive(Clone, Copy)]
pub enum Gathering {
    // The position after the CR, and how many bytes were kept.
    Line(usize, usize),
    // The position after the CR of a line that is over-long.
    TooLong(usize),
    // No CR is left; no byte is taken.
    NoCr,
}

// How many of the slots hold kept bytes, and whether one more than there are slots would have been kept. Both hold at once, since a line that
// is too long goes on being gathered: no Option would be plainer.
#[derive(Clone, Copy)]
struct Tally {
    count: usize,
    long: bool,
}

// Nothing is kept.
const EMPTY: Tally = Tally {
    count: 0,
    long: false,
};

// One byte of the line, of the class k, that is no CR.
#[tactic(auto, using(crate::proofs::Keeping::by_class))]
fn keep_byte(line: &mut [u8], t: Tally, b: u8, k: u8) -> Tally
    requires { (t.count ≤ length line.old) × (k ≡ class_of b) }
    ensures size { length line.new ≡ length line.old }
    ensures room { result.count ≤ length line.old }
    ensures kept { kept_in line.new result ≡ keep (length line.old) (kept_in line.old t) b }
{
    match k {
        class::DROPPED => t,
        class::ERASE => Tally {
            count: t.count.saturating_sub(1),
            ..t
        },
        class::DISCARD => EMPTY,
        _ if t.count < line.len() => {
            line[t.count] = b;
            Tally {
                count: t.count + 1,
                ..t
            }
        }
        _ => Tally { long: true, ..t },
    }
}

// Gathers a line from a position of the input into the slots, of which there are as many as the limit says. A
// position past the input's end has no CR after it.
#[tactic(auto, using(crate::proofs::Gathers::gathers))]
pub fn gather(input: &[u8], at: usize, line: &mut [u8]) -> Gathering
    ensures answer { result ≡ answer at (gathered (length line.old) (drop at input.now)) }
    ensures slots { line.new ≡ held (length line.old) (gathered (length line.old) (drop at input.now)) }
{
    let classes = CLASS;
    let mut t = EMPTY;
    for i in at..input.len() {
        let b = input[i];
        let k = class_in(&classes, b);
        if k == class::CR {
            // so that nothing is left of bytes that were erased
            line[t.count..].fill(0);
            return if t.long {
                Gathering::TooLong(i + 1)
            } else {
                Gathering::Line(i + 1, t.count)
            };
        }
        t = keep_byte(line, t, b, k);
    }
    line.fill(0);
    Gathering::NoCr
}
