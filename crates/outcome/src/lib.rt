// How a call ends: by a stop that no program statement gave, an edit, a listing, a run, or an immediate statement. What ends
// is the answer and the record, by value; the rest is where it was lent.
#![tactic(auto)]

ghost use Rattle.std.specs.Prelude.{◌≡◌, length};
ghost use Rattle.nibl.specs.Page.{records_of, places_of};
ghost use Rattle.nibl.specs.Record.{place, mark, position_of};
ghost use Rattle.nibl.specs.found.Read.{typed as reading_of};
ghost use Rattle.nibl.specs.found.Column.{column_of};
ghost use Rattle.nibl.specs.Runs.{run_from, run_outcome};
ghost use Rattle.nibl.specs.Lent.{sight_of};
ghost use Rattle.nibl.specs.Calls.{obey_read};
ghost use Rattle.effect.specs.Worlds.{env_with};
ghost use Rattle.page.specs.Standing.{Stands};
ghost use Rattle.page.specs.Listing.{listing};
ghost use Rattle.table.specs.Index.{Indexed};
ghost use Rattle.outcome.specs.Ends.{ended_in, world_at, stopped, refused, edit_end, list_end, ran_end};
ghost use Rattle.outcome.specs.Lends.{Lists, Accepted, IsStatement};

use nibl::stop::Stop;
use nibl::{Answer, Call, LineNumber, NO_LINE, NOWHERE, Onward, Place, Session};
use page::Edited;
use run::Ran;
use world::jump::Way;

// How a call ended: its answer, and the record then.
#[derive(Clone, Copy)]
pub struct Ended {
    pub answer: Answer,
    pub session: Session,
}

// A stop that no program statement gave: it has no line, no steps and no column.
pub fn stopped(stop: Stop, session: Session, inpos: usize, outpos: usize) -> Ended
    ensures { result ≡ stopped stop.0 session inpos outpos }
{
    Ended {
        answer: Answer::of(stop, NO_LINE, 0, inpos, outpos, 0),
        session,
    }
}

// A refused line: 5, and its column.
pub fn refused(column: u16, session: Session, inpos: usize, outpos: usize) -> Ended
    ensures { result ≡ refused column session inpos outpos }
{
    Ended {
        answer: Answer::of(Stop::NO_READING, NO_LINE, 0, inpos, outpos, column),
        session,
    }
}

// How an edit ends. One that changed the page, or replaced a line by itself, clears the stacks.
pub fn edited(edit: Edited, session: Session, inpos: usize, outpos: usize) -> Ended
    ensures { result ≡ edit_end edit session inpos outpos }
{
    match edit {
        Edited::Done => stopped(Stop::DONE, session.stackless(), inpos, outpos),
        Edited::NoRoom => stopped(Stop::PAGE_FULL, session, inpos, outpos),
        Edited::Absent => stopped(Stop::DONE, session, inpos, outpos),
    }
}

// LIST from a number on.
pub fn list(
    page: &[u8],
    from: LineNumber,
    output: &mut [u8],
    session: Session,
    inpos: usize,
    outpos: usize,
) -> Ended
    ensures value { result ≡ list_end session inpos (listing from.0 (records_of page.now) output.old outpos) }
    ensures output_after { output.new ≡ (listing from.0 (records_of page.now) output.old outpos).output }
{
    match page::list_from(page, from, output, outpos) {
        Ok(at) => stopped(Stop::DONE, session, inpos, at),
        Err(at) => stopped(Stop::OUTPUT_FULL, session, inpos, at),
    }
}

// What a run left, as a call's end.
fn ran(ran: Ran, vars: [u16; nibl::VARIABLES]) -> Ended
    ensures { result ≡ ran_end ran vars }
{
    let parts = ran.parts;
    let answer = Answer::of(ran.stop, ran.line, ran.steps, parts.inpos, parts.outpos, 0);
    Ended {
        answer,
        session: parts.session(vars, ran.paused),
    }
}

// A run within the call's budget. The variables are lent to it, the rest of the record goes by value.
pub fn run_from<'a>(
    from: Onward,
    session: Session,
    page: &'a [u8],
    memory: &mut [u8],
    input: &[u8],
    output: &mut [u8],
    call: Call,
    typed: &'a [u8],
    reply: &mut [u8],
    replies: &mut [u32],
    values: &mut [u16],
    ops: &mut [u32],
    table: &[u16],
) -> Ended
    requires { (Lists reply.old replies.old values.old ops.old × Accepted (length reply.old) page.now call.budget session × Stands (places_of page.now) (position_of from)) × Indexed page.now table.now }
    ensures { ended_in result page.now memory.new output.new
        ≡ run_outcome (run_from call.budget (env_with (length reply.old) page.now input.now (sight_of call) (place mark)) (position_of from)
        (world_at session memory.old output.old call.inpos call.outpos)) page.now }
{
    let sight = call.sight();
    let mut vars = session.vars;
    let parts = session.parts(call.inpos, call.outpos);
    let r = run::run_steps(
        from,
        call.budget,
        page,
        input,
        sight,
        &mut vars,
        memory,
        output,
        reply,
        replies,
        values,
        ops,
        parts,
        typed,
        table,
    );
    ran(r, vars)
}

// An immediate statement, whose operations are the first n: it runs at any budget and is not counted. It may set a run going.
pub fn immediate<'a>(
    n: usize,
    session: Session,
    page: &'a [u8],
    memory: &mut [u8],
    input: &[u8],
    output: &mut [u8],
    call: Call,
    typed: &'a [u8],
    reply: &mut [u8],
    replies: &mut [u32],
    values: &mut [u16],
    ops: &mut [u32],
    table: &[u16],
) -> Ended
    requires { (Lists reply.old replies.old values.old ops.old × Accepted (length reply.old) page.now call.budget session × IsStatement typed.now n ops.old) × Indexed page.now table.now }
    ensures { ended_in result page.now memory.new output.new
        ≡ obey_read call.budget (env_with (length reply.old) page.now input.now (sight_of call) (place mark))
        (world_at session memory.old output.old call.inpos call.outpos) (column_of typed.now) (reading_of typed.now) }
{
    let sight = call.sight();
    let mut vars = session.vars;
    let parts = session.parts(call.inpos, call.outpos);
    let d = statement::run_ops(
        &ops[..n],
        Place::mark(),
        page,
        input,
        sight,
        &mut vars,
        memory,
        output,
        reply,
        replies,
        values,
        parts,
        table,
    );
    let after = d.parts;
    let next = after.session(vars, NOWHERE);
    match d.way {
        Way::On | Way::Skip => stopped(Stop::DONE, next, after.inpos, after.outpos),
        Way::Stop(k) => stopped(k, next, after.inpos, after.outpos),
        Way::Go(from) => run_from(
            from,
            next,
            page,
            memory,
            input,
            output,
            call.at(after.inpos, after.outpos),
            typed,
            reply,
            replies,
            values,
            ops,
            table,
        ),
    }
}
