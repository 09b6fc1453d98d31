// The page check, and the places of a page: both go by the length bytes, and ask the reader about a record's text alone.
// Any bytes whatever are looked at safely.
#![tactic(auto)]

ghost use Rattle.std.specs.Prelude.{◌≤◌, ◌<◌, ◌≡◌, length, drop};
ghost use Rattle.nibl.specs.Bytes.{is_digit, starts};
ghost use Rattle.nibl.specs.found.Read.{reading};
ghost use Rattle.nibl.specs.Page.{has_reading, is_storable, is_good, text_at, ends_of, places_of, is_among};
ghost use Rattle.nibl.specs.Record.{position};
ghost use Rattle.page.specs.Walk.{size_at};
ghost use Rattle.places.specs.Whole.{Roomy, whole_size, record_size};
ghost use Rattle.places.specs.Ends.{end_in};
ghost use Rattle.nibl.specs.found.Form.{records_in};

use nibl::{CR, LAST_LINE, Place, ROOM};
use page::Records;

// Whether a text has a reading as a statement list.
fn reads(text: &[u8], ops: &mut [u32]) -> bool
    requires { Roomy text.now ops.old }
    ensures { result ≡ has_reading (reading text.now) }
{
    line::read_list(text, ops).is_ok()
}

// Whether one of the members of a text's reading ends at `p`.
fn ends_at(text: &[u8], p: usize, ops: &mut [u32]) -> bool
    requires { Roomy text.now ops.old }
    ensures { result ≡ is_among (ends_of 0 (length text.now) (reading text.now)) p }
{
    line::ends_member(text, p, ops).unwrap_or(false)
}

fn starts_digit(text: &[u8]) -> bool
    ensures { result ≡ starts is_digit text.now }
{
    text.first().is_some_and(|b| letter::is_digit(*b))
}

// Whether a page may hold this text at a line. The limit comes first: what is longer is not read.
fn is_storable(text: &[u8], line: u16, lim: usize, ops: &mut [u32]) -> bool
    requires { Roomy text.now ops.old }
    ensures { result ≡ is_storable lim line text.now }
{
    text.len() + value::digit_count(line) <= lim && !starts_digit(text) && reads(text, ops)
}

// How many bytes the whole record at `at` has, by its length byte, if one stands there.
fn whole_size(page: &[u8], at: usize) -> Option<usize>
    requires { at ≤ length page.now }
    ensures { result ≡ whole_size (drop at page.now) }
{
    let left = page.len() - at;
    if left < page::LEAST {
        return None;
    }
    let size = usize::from(page[at + 2]);
    let is_whole = page::LEAST <= size && size <= left && page[at + size - 1] == CR;
    is_whole.then_some(size)
}

// How many bytes the record at `at` has that a good page may hold there, of a number from `low` on, if one stands there.
fn record_size(page: &[u8], at: usize, low: u32, lim: usize, ops: &mut [u32]) -> Option<usize>
    requires { (at ≤ length page.now) × (251 ≤ length ops.old) }
    ensures { result ≡ record_size lim low (drop at page.now) }
{
    let size = whole_size(page, at)?;
    let line = page::line_at(page, at);
    let text = &page[at + page::HEAD..at + size - 1];
    // Lent no more than it needs: it clears the list that it is lent.
    let may_stand = low <= u32::from(line)
        && line <= LAST_LINE
        && is_storable(text, line, lim, &mut ops[..text.len()]);
    may_stand.then_some(size)
}

// The page check: good exactly when the definition says so.
pub fn is_good(page: &[u8], lim: usize) -> bool
    ensures { result ≡ is_good lim page.now }
{
    let mut ops = [0u32; ROOM];
    let mut at: usize = 0;
    let mut low: u32 = 0;
    // by no `Records`: those believe the length bytes, which are looked at here
    while !page::is_end(page, at) {
        let Some(size) = record_size(page, at, low, lim, &mut ops) else {
            return false;
        };
        low = u32::from(page::line_at(page, at)) + 1;
        at += size;
    }
    true
}

// Where so many records end that stand in a slice from a position on and that a good page may hold one behind the other.
// Nowhere if one of them is none.
pub fn records_end(s: &[u8], from: usize, count: usize, lim: usize) -> Option<usize>
    requires { from ≤ length s.now }
    ensures { result ≡ end_in s.now (records_in lim count 0 (drop from s.now)) }
{
    let mut ops = [0u32; ROOM];
    let mut at = from;
    let mut low: u32 = 0;
    for _ in 0..count {
        let size = record_size(s, at, low, lim, &mut ops)?;
        low = u32::from(page::line_at(s, at)) + 1;
        at += size;
    }
    Some(at)
}

// Whether a member of the record at `at` ends at that record's byte `i`.
fn ends_in(page: &[u8], at: usize, size: usize, i: usize) -> bool
    requires { (0 < size) × (size ≡ size_at (drop at page.now)) }
    ensures { result ≡ is_among (ends_of 3 (length (text_at (drop at page.now))) (reading (text_at (drop at page.now)))) i }
{
    if i < page::HEAD {
        return false;
    }
    let mut ops = [0u32; ROOM];
    ends_at(
        &page[at + page::HEAD..at + size - 1],
        i - page::HEAD,
        &mut ops,
    )
}

// Whether a position is a place of the page: it can be so only by the record that it lies in.
pub fn is_place(page: &[u8], place: Place) -> bool
    ensures { result ≡ is_among (places_of page.now) (position place) }
{
    let p = place.position();
    for (at, size) in Records::of(page) {
        if p - at < size {
            return ends_in(page, at, size, p - at);
        }
    }
    false
}
