// The table beside the page: "the line count, then each record's position, in order". The line finder that halves over it, the edits
// that keep it true, and the check. An empty table is none: then the page's own walk does the work.
#![tactic(auto)]

ghost use Rattle.std.specs.Prelude.{◌≤◌, ◌≡◌, length, drop, take};
ghost use Rattle.nibl.specs.Page.{find, records_of};
ghost use Rattle.nibl.specs.Table.{describes};
ghost use Rattle.page.specs.Walk.{found_at, reached};
ghost use Rattle.page.specs.Edits.{changed, store_of, delete_of, new_of};
ghost use Rattle.table.specs.Index.{Described, Indexed, kept_true};
ghost use Rattle.table.specs.Lent.{lent_entries};
ghost use Rattle.page.specs.Tables.{span_of};
ghost use Rattle.table.specs.Spots.{below, gone_at, TableFront, Spotted};

use nibl::{Call, LineNumber, Onward};
use page::{Edited, Records, Seat, found_at, line_at, number_at, size_at};

// A line's seat, and how many lines stand before it, which is counted where there is a table.
#[derive(Clone, Copy)]
struct Spot {
    index: usize,
    seat: Seat,
}

// Whether a table is what a walk of the page gives. What it holds past the last line is not looked at.
pub fn describes(page: &[u8], table: &[u16]) -> bool
    ensures { result ≡ describes page.now table.now }
{
    if table.len() < 1 {
        return false;
    }
    let mut k: usize = 0;
    for (at, _) in Records::of(page) {
        k += 1;
        if table.len() <= k || usize::from(table[k]) != at {
            return false;
        }
    }
    usize::from(table[0]) == k
}

// How many lines have a lower number: the search halves what it has not yet told apart. By hand: the library's search (`partition_point`) may
// be given no question that asks for an entry's record, and took several times as long.
fn seek(page: &[u8], n: u16, table: &[u16]) -> usize
    requires { Described page.now table.now }
    ensures { result ≡ below n (records_of page.now) }
{
    let mut lo: usize = 0;
    let mut hi = usize::from(table[0]);
    while lo < hi {
        let mid = lo + (hi - lo) / 2;
        let at = usize::from(table[mid + 1]);
        if number_at(page, at) < n {
            lo = mid + 1;
        } else {
            hi = mid;
        }
    }
    lo
}

// The line finder: the promise is that of the page's own, which walks.
pub fn find_line(page: &[u8], number: LineNumber, table: &[u16]) -> Option<Onward>
    requires { Indexed page.now table.now }
    ensures { found_at result ≡ reached (find page.now number.0) }
{
    if table.len() < 1 {
        return page::find_line(page, number);
    }
    let n = number.0;
    let k = seek(page, n, table);
    if usize::from(table[0]) <= k {
        return None;
    }
    let at = usize::from(table[k + 1]);
    if number_at(page, at) == n {
        return found_at(at);
    }
    None
}

// Where the k-th line stands, or the next one would: after the one before it.
fn start_of(page: &[u8], table: &[u16], k: usize) -> usize
    requires described { Described page.now table.now }
    requires k_in_bounds { k ≤ length (records_of page.now) }
    ensures { result ≡ span_of (take k (records_of page.now)) }
{
    if k < 1 {
        return 0;
    }
    let last = usize::from(table[k]);
    last + size_at(page, last).unwrap_or(0)
}

// How many bytes of the line n stand at `at`.
fn gone_at(page: &[u8], at: usize, n: u16) -> usize
    ensures { result ≡ gone_at (drop at page.now) n }
{
    if line_at(page, at) == n {
        size_at(page, at).unwrap_or(0)
    } else {
        0
    }
}

// A line's spot: by halves, or by the page's walk where no table is lent.
fn find_spot(page: &[u8], number: LineNumber, table: &[u16]) -> Spot
    requires { Indexed page.now table.now }
    ensures { Spotted page.now table.now number.0 result }
{
    if table.len() < 1 {
        let seat = page::find_seat(page, number);
        return Spot { index: 0, seat };
    }
    let n = number.0;
    let index = seek(page, n, table);
    let at = start_of(page, table, index);
    let gone = gone_at(page, at, n);
    Spot {
        index,
        seat: Seat { at, gone },
    }
}

// The table is made true of a page whose first lines, so many, it describes; they go up to `from`. Only the count and what follows those
// lines is written.
pub fn refill(page: &[u8], table: &mut [u16], first: usize, from: usize)
    requires { 1 ≤ length table.old → TableFront page.now table.old first from }
    ensures { table.new ≡ kept_true page.now table.old }
{
    if table.len() < 1 {
        return;
    }
    let mut k = first;
    for (at, _) in Records::onward(page, from) {
        k += 1;
        table[k] = at as u16;
    }
    table[0] = k as u16;
}

// A record is inserted, or replaces the one of its number.
pub fn store_line(page: &mut [u8], number: LineNumber, text: &[u8], table: &mut [u16]) -> Edited
    requires { Indexed page.old table.old }
    ensures result_after { changed page.new result ≡ store_of page.old number.0 text.now }
    ensures table_after { table.new ≡ kept_true page.new table.old }
{
    let Spot { index, seat } = find_spot(page, number, table);
    let edited = page::store_at(page, seat, number, text);
    refill(page, table, index, seat.at);
    edited
}

// The record of a line goes.
pub fn delete_line(page: &mut [u8], number: LineNumber, table: &mut [u16]) -> Edited
    requires { Indexed page.old table.old }
    ensures result_after { changed page.new result ≡ delete_of page.old number.0 }
    ensures table_after { table.new ≡ kept_true page.new table.old }
{
    let Spot { index, seat } = find_spot(page, number, table);
    let edited = page::delete_at(page, seat);
    refill(page, table, index, seat.at);
    edited
}

// NEW: the end mark comes first, and the count is 0.
pub fn new_page(page: &mut [u8], table: &mut [u16]) -> Edited
    requires { Indexed page.old table.old }
    ensures result_after { changed page.new result ≡ new_of page.old }
    ensures table_after { table.new ≡ kept_true page.new table.old }
{
    let edited = page::new_page(page);
    refill(page, table, 0, 0);
    edited
}

// How much of the table is lent.
pub fn lent_entries(call: Call, table: &[u16]) -> usize
    ensures { result ≡ lent_entries call table.now }
{
    if call.tabled == 0 { 0 } else { table.len() }
}
