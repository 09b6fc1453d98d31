// A rule set carried to another box: the saved form, the call that writes one and the call that takes one, by value as the other calls.
// Everything that a call may refuse is known before it writes its first byte.
#![tactic(auto)]

ghost use Rattle.std.specs.Prelude.{◌+◌, ◌≤◌, ◌≡◌, ◌&&◌, List, [], ◌++◌, ◌∷◌, length, drop};
ghost use Rattle.std.proofs.lemmas.List.Edits.{sets};
ghost use Rattle.nibl.specs.Typing.{limit};
ghost use Rattle.nibl.specs.Page.{records_of};
ghost use Rattle.nibl.specs.FirstRefusals.{page_in_range, memory_in_range, output_in_range, position_in_range, table_in_range};
ghost use Rattle.nibl.specs.Saved.{two_bytes, values_bytes, counted, form_number, saved_form};
ghost use Rattle.nibl.specs.found.Form.{values_in, is_counted, has_number, has_values, form_in};
ghost use Rattle.nibl.specs.Lent.{lent_all, left_all};
ghost use Rattle.nibl.specs.Carry.{saves, loads_form, loads};
ghost use Rattle.carry.specs.Forms.{Savable, OpenedAs, Loadable};

use nibl::stop::Stop;
use nibl::{Call, END_MARK, LIMIT, Session, VARIABLES, range};
use outcome::{Ended, stopped};
use page::Records;
use value::put_bytes;

// The form's first two bytes: its number, and how many variables follow.
const NUMBER: u8 = 1;

const VALUES: u8 = VARIABLES as u8;

// Where in a form the variables begin, the line count, and the records.
const VALUES_AT: usize = 2;

const COUNT_AT: usize = 54;

const RECORDS_AT: usize = 56;

// Bytes of a count, and of the end mark, which a form does not carry.
const COUNT: usize = 2;

const MARK: usize = 2;

// How many lines a page has.
fn line_count(page: &[u8]) -> usize
    ensures { result ≡ length (records_of page.now) }
{
    Records::of(page).count()
}

// Two bytes, the high one first.
fn put_two(output: &mut [u8], at: usize, x: u16)
    requires { at + 2 ≤ length output.old }
    ensures { output.new ≡ sets output.old at (two_bytes x) }
{
    output[at..at + 2].copy_from_slice(&x.to_be_bytes());
}

fn put_values(output: &mut [u8], at: usize, vars: [u16; VARIABLES])
    requires { at + 52 ≤ length output.old }
    ensures { output.new ≡ sets output.old at (values_bytes vars) }
{
    for (i, x) in vars.iter().enumerate() {
        put_two(output, at + 2 * i, *x);
    }
}

// What stands before a form's records: its number, the variables, and the line count.
fn put_head(output: &mut [u8], at: usize, vars: [u16; VARIABLES], lines: u16)
    requires { at + 56 ≤ length output.old }
    ensures { output.new ≡ sets output.old at (form_number ∷ 26 ∷ (values_bytes vars ++ two_bytes lines)) }
{
    output[at] = NUMBER;
    output[at + 1] = VALUES;
    put_values(output, at + VALUES_AT, vars);
    put_two(output, at + COUNT_AT, lines);
}

// Bytes, and before them how many they are.
fn put_counted(output: &mut [u8], at: usize, bytes: &[u8])
    requires { (length bytes.now ≤ 65535) × (at + 2 + length bytes.now ≤ length output.old) }
    ensures { output.new ≡ sets output.old at (counted bytes.now) }
{
    put_two(output, at, bytes.len() as u16);
    let from = at + COUNT;
    put_bytes(&mut output[from..from + bytes.len()], bytes);
}

// The form of a good page, of these variables and of this memory goes to the output, where it has room.
fn put_form(output: &mut [u8], at: usize, vars: [u16; VARIABLES], page: &[u8], memory: &[u8])
    requires { Savable output.old at page.now memory.now }
    ensures { output.new ≡ sets output.old at (saved_form (record { vars = vars; records = records_of page.now; memory = memory.now })) }
{
    let end = page::used_bytes(page) - MARK;
    put_head(output, at, vars, line_count(page) as u16);
    let from = at + RECORDS_AT;
    put_bytes(&mut output[from..from + end], &page[..end]);
    put_counted(output, from + end, memory);
}

// Whether all that a save looks at is in range.
fn save_in_range(page: usize, memory: usize, output: usize, outpos: usize) -> bool
    ensures { result ≡ (page_in_range page && (memory_in_range memory && (output_in_range output && position_in_range outpos output))) }
{
    range::page_in_range(page)
        && range::memory_in_range(memory)
        && range::output_in_range(output)
        && range::position_in_range(outpos, output)
}

// Save: all that is left is what the definition's `saves` leaves of all that was lent.
pub fn save(
    rec: Session,
    page: &mut [u8],
    memory: &mut [u8],
    input: &[u8],
    output: &mut [u8],
    call: Call,
    table: &mut [u16],
) -> Ended
    ensures { left_all result.answer result.session page.new memory.new output.new table.new ≡ saves (lent_all rec page.old memory.old input.now output.old call table.old) }
{
    let at = call.outpos;
    if !save_in_range(page.len(), memory.len(), output.len(), at) {
        return stopped(Stop::OUT_OF_RANGE, rec, call.inpos, at);
    }
    if !places::is_good(page, LIMIT) {
        return stopped(Stop::BAD_PAGE, rec, call.inpos, at);
    }
    if !record::fits(page, rec) {
        return stopped(Stop::BAD_RECORD, rec, call.inpos, at);
    }
    let end = at + RECORDS_AT + page::used_bytes(page) + memory.len();
    if output.len() < end {
        return stopped(Stop::OUTPUT_FULL, rec, call.inpos, at);
    }
    put_form(output, at, rec.vars, page, memory);
    stopped(Stop::DONE, rec, call.inpos, end)
}

// Whether a slice has the form's number.
fn has_number(form: &[u8]) -> bool
    ensures { result ≡ has_number form.now }
{
    form.first() == Some(&NUMBER)
}

// Whether it has as many variables as it should, and a line count.
fn has_values(form: &[u8]) -> bool
    ensures { result ≡ has_values form.now }
{
    RECORDS_AT <= form.len() && form[1] == VALUES
}

// Whether a count and so many bytes are all that stands from `at` on.
fn is_counted(form: &[u8], at: usize) -> bool
    requires { at ≤ length form.now }
    ensures { result ≡ is_counted (drop at form.now) }
{
    let left = form.len() - at;
    COUNT <= left && left == usize::from(page::number_at(form, at)) + COUNT
}

// A slice is opened, it is looked at whole: where the records end that it carries, or 22 or 23.
fn open_form(form: &[u8], lim: usize) -> Result<usize, Stop>
    ensures { OpenedAs lim form.now result }
{
    if !has_number(form) {
        return Err(Stop::OTHER_FORM);
    }
    if !has_values(form) {
        return Err(Stop::BAD_FORM);
    }
    let count = usize::from(page::number_at(form, COUNT_AT));
    let end = places::records_end(form, RECORDS_AT, count, lim).ok_or(Stop::BAD_FORM)?;
    if !is_counted(form, end) {
        return Err(Stop::BAD_FORM);
    }
    Ok(end)
}

// The variables of a form.
fn form_values(form: &[u8]) -> [u16; VARIABLES]
    requires { 54 ≤ length form.now }
    ensures { result ≡ values_in 26 (drop 2 form.now) }
{
    let mut vars = [0u16; VARIABLES];
    for (i, x) in vars.iter_mut().enumerate() {
        *x = page::number_at(form, VALUES_AT + 2 * i);
    }
    vars
}

// A program's records and the end mark go to the front of a page that has room for them. What is behind stays.
fn put_program(page: &mut [u8], records: &[u8])
    requires { length records.now + 2 ≤ length page.old }
    ensures { page.new ≡ records.now ++ (255 ∷ 255 ∷ drop (length records.now + 2) page.old) }
{
    let n = records.len();
    put_bytes(&mut page[..n], records);
    page[n] = END_MARK;
    page[n + 1] = END_MARK;
}

// Whether all that a load looks at is in range.
fn load_in_range(page: usize, memory: usize, call: Call, table: usize) -> bool
    ensures { result ≡ (page_in_range page && (memory_in_range memory && table_in_range call table)) }
{
    range::page_in_range(page)
        && range::memory_in_range(memory)
        && range::table_in_range(call, table)
}

// A load of a form whose records end at `end`: 24, 2, or all that it carries.
fn load_opened(
    rec: Session,
    page: &mut [u8],
    memory: &mut [u8],
    form: &[u8],
    end: usize,
    call: Call,
    table: &mut [u16],
) -> Ended
    requires { Loadable limit page.old form.now end call table.old }
    ensures { left_all result.answer result.session page.new memory.new [] table.new ≡ loads_form (lent_all rec page.old memory.old form.now [] call table.old) (form_in limit form.now) }
{
    let from = end + COUNT;
    if form.len() - from != memory.len() {
        return stopped(Stop::OTHER_MEMORY, rec, call.inpos, call.outpos);
    }
    if page.len() < end - RECORDS_AT + MARK {
        return stopped(Stop::PAGE_FULL, rec, call.inpos, call.outpos);
    }
    put_program(page, &form[RECORDS_AT..end]);
    put_bytes(memory, &form[from..]);
    let entries = table::lent_entries(call, table);
    table::refill(page, &mut table[..entries], 0, 0);
    stopped(
        Stop::DONE,
        rec.loaded(form_values(form)),
        call.inpos,
        call.outpos,
    )
}

// Load: all that is left is what the definition's `loads` leaves of all that was lent. The form is the input, whole.
pub fn load(
    rec: Session,
    page: &mut [u8],
    memory: &mut [u8],
    input: &[u8],
    output: &mut [u8],
    call: Call,
    table: &mut [u16],
) -> Ended
    ensures { left_all result.answer result.session page.new memory.new output.new table.new ≡ loads (lent_all rec page.old memory.old input.now output.old call table.old) }
{
    if !load_in_range(page.len(), memory.len(), call, table.len()) {
        return stopped(Stop::OUT_OF_RANGE, rec, call.inpos, call.outpos);
    }
    match open_form(input, LIMIT) {
        Ok(end) => load_opened(rec, page, memory, input, end, call, table),
        Err(n) => stopped(n, rec, call.inpos, call.outpos),
    }
}
