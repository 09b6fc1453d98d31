// The two calls by value: take one typed line, and continue a paused run. Each answers, and hands the record back.
// The first refusals come first and change nothing; past them a call has ended any pause.
#![tactic(auto)]

ghost use Rattle.std.specs.Prelude.{◌≡◌, true, false, length};
ghost use Rattle.nibl.specs.Page.{places_of, fits_paused};
ghost use Rattle.nibl.specs.Record.{unpaused};
ghost use Rattle.nibl.specs.Lent.{lent_all, left_all, outcome_with};
ghost use Rattle.nibl.specs.Typing.{limit};
ghost use Rattle.nibl.specs.FirstRefusals.{lengths_in_range, true_of, first_refusal};
ghost use Rattle.nibl.specs.Calls.{leaves, continue_from, take_line, continue_run, table_past};
ghost use Rattle.outcome.specs.Ends.{ended_in};
ghost use Rattle.outcome.specs.Lends.{Lists, Accepted};
ghost use Rattle.calls.specs.Tables.{TableLent};
ghost use Rattle.calls.specs.Past.{refusal_of, past_refusals};
ghost use Rattle.table.specs.Index.{Indexed};

use nibl::stop::Stop;
use nibl::{Call, LIMIT, Onward, ROOM, Session, range};
use outcome::Ended;

// Whether all that a call looks at is in range.
fn in_range(
    page: usize,
    memory: usize,
    input: usize,
    output: usize,
    call: Call,
    table: usize,
) -> bool
    ensures { result ≡ lengths_in_range page memory input output call table }
{
    range::page_in_range(page)
        && range::memory_in_range(memory)
        && range::input_in_range(input)
        && range::output_in_range(output)
        && range::position_in_range(call.inpos, input)
        && range::position_in_range(call.outpos, output)
        && range::budget_in_range(call.budget)
        && range::table_in_range(call, table)
}

// Whether a table that is lent describes the page.
fn is_described(page: &[u8], call: Call, table: &[u16]) -> bool
    ensures { result ≡ true_of page.now call table.now }
{
    call.tabled == 0 || table::describes(page, table)
}

// The first refusals, in their order: 1, 18, 26, 19.
fn first_refusal(
    rec: Session,
    page: &[u8],
    memory: &[u8],
    input: &[u8],
    output: &[u8],
    call: Call,
    lim: usize,
    table: &[u16],
) -> Result<(), Stop>
    ensures { result ≡ refusal_of (first_refusal lim (lent_all rec page.now memory.now input.now output.now call table.now)) }
{
    if !in_range(
        page.len(),
        memory.len(),
        input.len(),
        output.len(),
        call,
        table.len(),
    ) {
        return Err(Stop::OUT_OF_RANGE);
    }
    if !places::is_good(page, lim) {
        return Err(Stop::BAD_PAGE);
    }
    if !is_described(page, call, table) {
        return Err(Stop::BAD_TABLE);
    }
    if !record::fits(page, rec) {
        return Err(Stop::BAD_RECORD);
    }
    Ok(())
}

// A paused run goes on; with nothing paused there is nothing to do.
fn paused_run(
    rec: Session,
    page: &[u8],
    memory: &mut [u8],
    input: &[u8],
    output: &mut [u8],
    call: Call,
    reply: &mut [u8],
    replies: &mut [u32],
    values: &mut [u16],
    ops: &mut [u32],
    table: &[u16],
) -> Ended
    requires { (Lists reply.old replies.old values.old ops.old × Accepted (length reply.old) page.now call.budget (unpaused rec) × (fits_paused (places_of page.now) rec.paused ≡ true)) × Indexed page.now table.now }
    ensures { ended_in result page.now memory.new output.new
        ≡ continue_from (length reply.old) (lent_all rec page.now memory.old input.now output.old call table.now) rec.paused }
{
    match Onward::paused(rec.paused) {
        None => outcome::stopped(Stop::DONE, rec.unpaused(), call.inpos, call.outpos),
        Some(from) => outcome::run_from(
            from,
            rec.unpaused(),
            page,
            memory,
            input,
            output,
            call,
            &page[..0],
            reply,
            replies,
            values,
            ops,
            table,
        ),
    }
}

// A typed line past the first refusals. The lists stand here and not in the call, so that they take no stack while page and record
// are checked: so it must not be worked into the call. Below here no table is one without entries.
#[inline(never)]
fn accepted_line(
    rec: Session,
    page: &mut [u8],
    memory: &mut [u8],
    input: &[u8],
    output: &mut [u8],
    call: Call,
    table: &mut [u16],
) -> Ended
    requires { (Accepted limit page.old call.budget (unpaused rec) × (fits_paused (places_of page.old) rec.paused ≡ true)) × TableLent page.old call table.old }
    ensures output_after { outcome_with result.answer result.session page.new memory.new output.new
        ≡ past_refusals true (lent_all rec page.old memory.old input.now output.old call table.old) }
    ensures table_after { table.new ≡ table_past call page.new table.old }
{
    let entries = table::lent_entries(call, table);
    obey::typed_line(
        rec,
        page,
        memory,
        input,
        output,
        call,
        &mut [0u8; LIMIT],
        &mut [0u8; LIMIT],
        &mut [0u32; LIMIT],
        &mut [0u16; ROOM],
        &mut [0u32; ROOM],
        &mut table[..entries],
    )
}

// A paused run past the first refusals: page and table stay. Its lists stand here for the same reason.
#[inline(never)]
fn accepted_run(
    rec: Session,
    page: &[u8],
    memory: &mut [u8],
    input: &[u8],
    output: &mut [u8],
    call: Call,
    table: &[u16],
) -> Ended
    requires { (Accepted limit page.now call.budget (unpaused rec) × (fits_paused (places_of page.now) rec.paused ≡ true)) × TableLent page.now call table.now }
    ensures { outcome_with result.answer result.session page.now memory.new output.new
        ≡ past_refusals false (lent_all rec page.now memory.old input.now output.old call table.now) }
{
    let entries = table::lent_entries(call, table);
    paused_run(
        rec,
        page,
        memory,
        input,
        output,
        call,
        &mut [0u8; LIMIT],
        &mut [0u32; LIMIT],
        &mut [0u16; ROOM],
        &mut [0u32; ROOM],
        &table[..entries],
    )
}

// The two calls have one shape and stay two: hosts know both, and past the refusals each has a function of its own.

// Take one typed line: all that is left is what the definition's `take_line` leaves of all that was lent.
pub fn take_line(
    rec: Session,
    page: &mut [u8],
    memory: &mut [u8],
    input: &[u8],
    output: &mut [u8],
    call: Call,
    table: &mut [u16],
) -> Ended
    ensures { left_all result.answer result.session page.new memory.new output.new table.new
        ≡ leaves take_line (lent_all rec page.old memory.old input.now output.old call table.old) }
{
    if let Err(stop) = first_refusal(rec, page, memory, input, output, call, LIMIT, table) {
        return outcome::stopped(stop, rec, call.inpos, call.outpos);
    }
    accepted_line(rec, page, memory, input, output, call, table)
}

// Continue a paused run: all that is left is what the definition's `continue_run` leaves of all that was lent.
pub fn continue_run(
    rec: Session,
    page: &mut [u8],
    memory: &mut [u8],
    input: &[u8],
    output: &mut [u8],
    call: Call,
    table: &mut [u16],
) -> Ended
    ensures { left_all result.answer result.session page.new memory.new output.new table.new
        ≡ leaves continue_run (lent_all rec page.old memory.old input.now output.old call table.old) }
{
    if let Err(stop) = first_refusal(rec, page, memory, input, output, call, LIMIT, table) {
        return outcome::stopped(stop, rec, call.inpos, call.outpos);
    }
    accepted_run(rec, page, memory, input, output, call, table)
}
