// The page: the walk along its records by their length bytes, to a line too, the running text, and the edits.
// Any bytes whatever are looked at safely; what is said of a good page is said in proofs/.
#![tactic(auto)]

ghost use Rattle.std.specs.Prelude.{◌+◌, ◌-◌, ◌≤◌, ◌<◌, ◌&&◌, not, ◌++◌, leb, eqb, ◌≡◌, ◌==◌, length, get_or, drop, if◌then◌else◌};
ghost use Rattle.std.proofs.Math.Option.{some};
ghost use Rattle.std.specs.List.{position as first_place};
ghost use Rattle.std.specs.Iterator.{at_most};
ghost use Rattle.nibl.specs.Bytes.{byte, byte_cr};
ghost use Rattle.nibl.specs.Page.{record_bytes, is_end, find, line_at, length_at, line_of, used, used_by, records_of};
ghost use Rattle.nibl.specs.Record.{position, position_of};
ghost use Rattle.nibl.specs.Runs.{line_from, text_from};
ghost use Rattle.nibl.specs.Calls.{listed};
ghost use Rattle.value.specs.Writes.{Writes};
ghost use Rattle.page.specs.Edits.{Seated, Seatable, moved, can_move, spliced, changed, store_at_seat, delete_at, new_of};
ghost use Rattle.page.specs.Listing.{shown, listing, Here};
ghost use Rattle.page.specs.Walk.{Sizes, Steps, stops_at, size_at, record_at, cut, reached, found_at, begin_of, text_of};

use nibl::{COLON, CR, END_MARK, LF, LineNumber, Onward, Place};
use value::{digit_count, has_room, put_bytes, write_digits, write_item};

// A record's bytes before its text: the number and the length; and all but the text: those and the CR.
pub const HEAD: usize = 3;

pub const FRAME: usize = 4;

// The shortest record and the longest: a text has a byte at least, and the length is one byte.
pub const LEAST: usize = 5;

const MOST: usize = 255;

// Where the running statement is: in the page, from a position on, or in the typed line. It is no Option: document 01 names the form, one
// function that is given both slices.
#[derive(Clone, Copy)]
pub enum Where {
    Page(usize),
    Line,
}

// Where a line's record stands or is to stand, and how many bytes of that line are there.
#[derive(Clone, Copy)]
pub struct Seat {
    pub at: usize,
    pub gone: usize,
}

// How an edit ended. A page that has no room, and one that lacks the line, are as before.
#[derive(Clone, Copy)]
pub enum Edited {
    Done,
    NoRoom,
    Absent,
}

// A byte, and 0 past the end.
fn byte_at(s: &[u8], i: usize) -> u8
    ensures { result ≡ get_or s.now i 0 }
{
    s.get(i).copied().unwrap_or(0)
}

// Whether the end mark stands at `at`, where two bytes stand.
fn is_end_mark(page: &[u8], at: usize) -> bool
    requires { at + 2 ≤ length page.now }
    ensures { result ≡ is_end (drop at page.now) }
{
    page[at] == END_MARK && page[at + 1] == END_MARK
}

// Whether the end mark stands at `at`.
pub fn is_end(page: &[u8], at: usize) -> bool
    ensures { result ≡ is_end (drop at page.now) }
{
    let n = page.len();
    at < n && 2 <= n - at && is_end_mark(page, at)
}

// Whether a record stands at `at`.
fn has_record(page: &[u8], at: usize) -> bool
    ensures { result ≡ not (stops_at (drop at page.now)) }
{
    let n = page.len();
    at < n && HEAD <= n - at && !is_end_mark(page, at) && LEAST <= length_at(page, at)
}

// The length byte of the record at `at`.
fn length_at(page: &[u8], at: usize) -> usize
    requires { at + 3 ≤ length page.now }
    ensures { result ≡ length_at (drop at page.now) }
{
    usize::from(page[at + 2])
}

// How many bytes the record at `at` has, if one begins. One that the page's end cuts off counts as if its CR came next.
pub fn size_at(page: &[u8], at: usize) -> Option<usize>
    ensures { Sizes (drop at page.now) result }
{
    if !has_record(page, at) {
        return None;
    }
    Some(length_at(page, at).min(page.len() - at + 1))
}

// The records of a page from a position on: where each stands, and how many bytes it has.
#[derive(Drop)]
pub struct Records<'a> {
    page: &'a [u8],
    at: usize,
}

impl<'a> Iterator for Records<'a> {
    type Item = (usize, usize);

    ghost next_gives = { λ s r t. Steps s.page.now s.at r t.page.now t.at };

    ghost remaining = { λ s. at_most (length s.page.now + 1 - s.at) };

    fn next(&mut self) -> Option<(usize, usize)> {
        let at = self.at;
        let size = size_at(self.page, at)?;
        self.at = at + size;
        Some((at, size))
    }
}

impl<'a> Records<'a> {
    // All of them.
    pub fn of(page: &'a [u8]) -> Records<'a>
        ensures { (result.page.now ≡ page.now) × (result.at ≡ 0) }
    {
        Records { page, at: 0 }
    }

    // Those from a position on.
    pub fn onward(page: &'a [u8], at: usize) -> Records<'a>
        ensures { (result.page.now ≡ page.now) × (result.at ≡ at) }
    {
        Records { page, at }
    }
}

// Where a walk by the length bytes is: past a record that the page's end cuts off it is behind the CR that would come next.
fn reach(page: &[u8], at: usize) -> usize
    ensures { result ≡ cut page.now at }
{
    at.min(page.len() + 1)
}

// The number of the record at `at`.
pub fn line_at(page: &[u8], at: usize) -> u16
    ensures { result ≡ line_at (drop at page.now) }
{
    if page.len() <= at {
        return 0;
    }
    u16::from_be_bytes([byte_at(page, at), byte_at(page, at + 1)])
}

// The same where a record stands: its bytes are there, and the walks need not ask again.
pub fn number_at(page: &[u8], at: usize) -> u16
    requires { at + 2 ≤ length page.now }
    ensures { result ≡ line_at (drop at page.now) }
{
    u16::from_be_bytes([page[at], page[at + 1]])
}

// The used bytes from a record boundary on, the end mark with them, and those before it.
fn used_from(page: &[u8], from: usize) -> usize
    requires { from ≤ length page.now + 1 }
    ensures { result ≡ from + used_by (records_of (drop from page.now)) }
{
    // By hand: with `Records`, which asks of each record whether the page's end cuts it off, this walk was a fifth slower.
    let mut at = from;
    while has_record(page, at) {
        at += length_at(page, at);
    }
    reach(page, at) + 2
}

// TOP: the page's used bytes with the end mark.
pub fn used_bytes(page: &[u8]) -> usize
    ensures { result ≡ used page.now }
{
    used_from(page, 0)
}

// A record's position, by the place before it. Past what a place can name there is none.
pub fn found_at(at: usize) -> Option<Onward>
    ensures { found_at result ≡ reached (some at) }
{
    if at == 0 {
        return Some(Onward::Start);
    }
    if at < 65536 {
        return Some(Onward::After(Place::at(at - 1)));
    }
    None
}

// The walk to a line, which the line finder of crate `table` takes where no table is lent.
pub fn find_line(page: &[u8], number: LineNumber) -> Option<Onward>
    ensures { found_at result ≡ reached (find page.now number.0) }
{
    let n = number.0;
    // By hand: with `Records`, which asks of each record whether the page's end cuts it off, this walk was a fifth slower.
    let mut at: usize = 0;
    while has_record(page, at) {
        if number_at(page, at) == n {
            return found_at(at);
        }
        at += length_at(page, at);
    }
    None
}

// The line of the record that the position p lies in; 0 past the records.
fn line_around(page: &[u8], p: usize) -> LineNumber
    ensures { result.0 ≡ line_of page.now p }
{
    for (at, size) in Records::of(page) {
        if p - at < size {
            return LineNumber(line_at(page, at));
        }
    }
    LineNumber(0)
}

// The line of the record that a place lies in.
pub fn line_of(page: &[u8], place: Place) -> LineNumber
    ensures { result.0 ≡ line_of page.now (position place) }
{
    line_around(page, place.position())
}

// Where the first CR stands.
fn find_cr(s: &[u8]) -> Option<usize>
    ensures { result ≡ first_place (λ b. b == byte_cr) s.now }
{
    s.iter().position(|b| *b == CR)
}

// The text from `at` on, up to the next CR.
fn line_from<'a>(s: &'a [u8], at: usize) -> &'a [u8]
    ensures { result.now ≡ line_from s.now at }
{
    let rest = &s[at.min(s.len())..];
    &rest[..find_cr(rest).unwrap_or(rest.len())]
}

// The text of the running statement: a part of the page, or of the typed line.
pub fn running<'a>(page: &'a [u8], line: &'a [u8], at: Where) -> &'a [u8]
    ensures { result.now ≡ text_of page.now line.now at }
{
    match at {
        Where::Page(a) => line_from(page, a),
        Where::Line => line,
    }
}

// Whether a ":" stands before `at`.
fn after_colon(page: &[u8], at: usize) -> bool
    ensures { result ≡ (leb 1 at && eqb (get_or page.now (at - 1) 0) (byte ":")) }
{
    0 < at && byte_at(page, at - 1) == COLON
}

// Where the text begins that is next.
pub fn text_from(page: &[u8], from: Onward) -> Option<usize>
    ensures { begin_of result ≡ text_from page.now (position_of from) }
{
    let at = from.position();
    if after_colon(page, at) {
        return Some(at);
    }
    if is_end(page, at) {
        return None;
    }
    Some(at + HEAD)
}

// The walk to a line's seat.
pub fn find_seat(page: &[u8], number: LineNumber) -> Seat
    ensures { Seated page.now number.0 result }
{
    let n = number.0;
    // By hand, as `find_line` walks.
    let mut at: usize = 0;
    while has_record(page, at) {
        let line = number_at(page, at);
        if line == n {
            let size = size_at(page, at).unwrap_or(0);
            return Seat { at, gone: size };
        }
        if n < line {
            return Seat { at, gone: 0 };
        }
        at += length_at(page, at);
    }
    Seat {
        at: reach(page, at),
        gone: 0,
    }
}

// n bytes go to a lower place, the first one first.
fn move_left(s: &mut [u8], from: usize, to: usize, n: usize)
    requires { (to ≤ from) × (from + n ≤ length s.old) }
    ensures { s.new ≡ moved s.old from to n }
{
    for i in 0..n {
        s[to + i] = s[from + i];
    }
}

// n bytes go to a higher place, the last one first.
fn move_right(s: &mut [u8], from: usize, to: usize, n: usize)
    requires { (from ≤ to) × (to + n ≤ length s.old) }
    ensures { s.new ≡ moved s.old from to n }
{
    for i in (0..n).rev() {
        s[to + i] = s[from + i];
    }
}

// The mover: as if the bytes were taken whole first.
fn shift(s: &mut [u8], from: usize, to: usize, n: usize)
    requires { (from + n ≤ length s.old) × (to + n ≤ length s.old) }
    ensures { s.new ≡ moved s.old from to n }
{
    if to <= from {
        move_left(s, from, to, n);
    } else {
        move_right(s, from, to, n);
    }
}

// Bytes go to another place of a slice, as if they were taken whole first. False: they, or their new place, are not all in it, and nothing is changed.
pub fn move_bytes(s: &mut [u8], from: usize, to: usize, n: usize) -> bool
    ensures value { result ≡ can_move s.old from to n }
    ensures s_after { s.new ≡ (if can_move s.old from to n then moved s.old from to n else s.old) }
{
    let room = s.len();
    if room < n || room - n < from.max(to) {
        return false;
    }
    shift(s, from, to, n);
    true
}

// The record writer: a record goes to the front of a slice.
fn put_record(s: &mut [u8], number: LineNumber, text: &[u8])
    requires { (length text.now + 4 ≤ 255) × (length text.now + 4 ≤ length s.old) }
    ensures { s.new ≡ record_bytes (record { line = number.0; text = text.now }) ++ drop (length text.now + 4) s.old }
{
    let n = text.len();
    s[..2].copy_from_slice(&number.0.to_be_bytes());
    s[2] = (n + FRAME) as u8;
    put_bytes(&mut s[HEAD..HEAD + n], text);
    s[HEAD + n] = CR;
}

// On the page from a seat on: `gone` bytes go, a record comes, and the `rest` behind them moves.
fn put_in(s: &mut [u8], gone: usize, rest: usize, number: LineNumber, text: &[u8])
    requires { (gone + rest ≤ length s.old) × ((length text.now + 4 ≤ 255) × (length text.now + 4 + rest ≤ length s.old)) }
    ensures { s.new ≡ spliced s.old 0 gone (gone + rest) (record_bytes (record { line = number.0; text = text.now })) }
{
    let size = text.len() + FRAME;
    shift(s, gone, size, rest);
    put_record(s, number, text);
}

// A record is inserted at its line's seat, or replaces the one of its number, whose room counts as free.
pub fn store_at(page: &mut [u8], seat: Seat, number: LineNumber, text: &[u8]) -> Edited
    requires { Seatable page.old seat }
    ensures { changed page.new result ≡ store_at_seat page.old seat number.0 text.now }
{
    let Seat { at, gone } = seat;
    let top = used_from(page, at);
    let size = text.len() + FRAME;
    if page.len() < top || MOST < size || page.len() < top - gone + size {
        return Edited::NoRoom;
    }
    put_in(&mut page[at..], gone, top - gone - at, number, text);
    Edited::Done
}

// The record at a line's seat goes.
pub fn delete_at(page: &mut [u8], seat: Seat) -> Edited
    requires { Seatable page.old seat }
    ensures { changed page.new result ≡ delete_at page.old seat }
{
    let Seat { at, gone } = seat;
    if gone == 0 {
        return Edited::Absent;
    }
    let top = used_from(page, at);
    if page.len() < top {
        return Edited::NoRoom;
    }
    shift(&mut page[at..], gone, 0, top - at - gone);
    Edited::Done
}

// NEW: the end mark comes first.
pub fn new_page(page: &mut [u8]) -> Edited
    ensures { changed page.new result ≡ new_of page.old }
{
    if page.len() < 2 {
        return Edited::NoRoom;
    }
    page[0] = END_MARK;
    page[1] = END_MARK;
    Edited::Done
}

// The record of `size` bytes at `at` as LIST writes it: digits, text, CR, LF.
fn list_line(page: &[u8], at: usize, size: usize, output: &mut [u8], pos: usize) -> Option<usize>
    requires { (0 < size) × (size ≡ size_at (drop at page.now)) }
    ensures { Writes output.old pos (listed (record_at (drop at page.now))) result output.new }
{
    let line = line_at(page, at);
    let count = digit_count(line);
    let n = count + size - 2;
    if !has_room(output.len(), pos, n) {
        return None;
    }
    write_digits(output, pos, line);
    let a = pos + count;
    write_item(output, a, &page[at + HEAD..at + size - 1]);
    let e = a + size - FRAME;
    output[e] = CR;
    output[e + 1] = LF;
    Some(e + 2)
}

// A record below the number is passed over.
fn list_here(
    page: &[u8],
    at: usize,
    size: usize,
    n: u16,
    output: &mut [u8],
    pos: usize,
) -> Option<usize>
    requires { (0 < size) × (size ≡ size_at (drop at page.now)) }
    ensures { Here n (record_at (drop at page.now)) output.old pos result output.new }
{
    if line_at(page, at) < n {
        return Some(pos);
    }
    list_line(page, at, size, output, pos)
}

// LIST: each line from a number on, whole or not at all.
pub fn list_from(
    page: &[u8],
    number: LineNumber,
    output: &mut [u8],
    from: usize,
) -> Result<usize, usize>
    ensures { shown output.new result ≡ listing number.0 (records_of page.now) output.old from }
{
    let n = number.0;
    let mut pos = from;
    for (at, size) in Records::of(page) {
        pos = list_here(page, at, size, n, output, pos).ok_or(pos)?;
    }
    Ok(pos)
}
