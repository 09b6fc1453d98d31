// The steps of a program within a budget.
// What a run needs besides is lent down: the operations of a statement and of a reply, their values, and the reply's bytes,
// which are as many as the limit.
#![tactic(auto)]

ghost use Rattle.std.specs.Prelude.{◌≤◌, [], ◌∷◌, ◌≡◌, length};
ghost use Rattle.nibl.specs.Page.{line_of};
ghost use Rattle.nibl.specs.Runs.{stop_at, run_from, run_outcome};
ghost use Rattle.nibl.specs.Record.{mark, place, position, position_of};
ghost use Rattle.world.specs.Turns.{way_of};
ghost use Rattle.effect.specs.Worlds.{env_with, world_with};
ghost use Rattle.table.specs.Index.{Indexed};
ghost use Rattle.run.specs.StepEnds.{led_to, next_after};
ghost use Rattle.run.specs.Fetching.{FetchRoom, fetch_of, fetched_in, fetched_count};
ghost use Rattle.run.specs.Running.{MayRun, ran_to, ran_in, pause_of};

use effect::Lines;
use nibl::access::Sight;
use nibl::stop::Stop;
use nibl::{Onward, Parts, Place};
use page::Where;
use statement::Plain;
use world::jump::Way;

// How a run ended: its stop and that stop's line, how many steps it took, where it is paused, and the parts then. No line is
// 65535 and no pause 0, numbers and no Options: the answer and the record of the C interface have them so.
#[derive(Clone, Copy)]
pub struct Ran {
    pub stop: Stop,
    pub line: u16,
    pub steps: u16,
    pub paused: u16,
    pub parts: Parts,
}

// Where a run goes on after a statement, or the stop that it ends with: p is its place, cr that of its record's CR.
fn led_by(way: Way, p: Place, cr: Place) -> Result<Onward, Stop>
    ensures { led_to result ≡ next_after (way_of way) (position p) (position cr) }
{
    match way {
        Way::On => Ok(Onward::After(p)),
        Way::Skip => Ok(Onward::After(cr)),
        Way::Go(o) => Ok(o),
        Way::Stop(stop) => Err(stop),
    }
}

// Where the operations of the member are that is next: as many from the first one on, the place that ends the member, and that of
// its record's CR. A text with no member is never asked for; it counts as the program's end. What was typed is lent beside the
// page, for the function that says where the running text is.
fn fetch<'a>(
    from: Onward,
    page: &'a [u8],
    typed: &'a [u8],
    ops: &mut [u32],
) -> Option<(usize, Place, Place)>
    requires { FetchRoom page.now (position_of from) ops.old }
    ensures { (fetched_in result ops.new ≡ fetch_of page.now (position_of from)) × (fetched_count result ≤ length ops.old) }
{
    let a = page::text_from(page, from)?;
    let text = page::running(page, typed, Where::Page(a));
    let (count, left) = reader::read_member(text, ops).ok()?;
    let cr = a + text.len();
    Some((count, Place::at(cr - left), Place::at(cr)))
}

// The line of a statement that gave a stop; there is none for 0, for 14. No statement stops with 14, which crate demands
// proves; the definition asks, so this does.
fn line_of_stop(page: &[u8], stop: Stop, at: Place) -> u16
    ensures { result ≡ stop_at stop.0 (line_of page.now (position at) ∷ []) }
{
    match stop {
        Stop::DONE | Stop::PAUSED => nibl::NO_LINE,
        _ => page::line_of(page, at).0,
    }
}

// A run is paused where its stop is 14. No statement's stop is, as above; the definition asks, so this does.
fn pause(stop: Stop, at: Place) -> u16
    requires { position at ≤ 65534 }
    ensures { result ≡ pause_of stop.0 (position at) }
{
    if stop == Stop::PAUSED {
        nibl::paused_at(at.position())
    } else {
        nibl::NOWHERE
    }
}

fn run_ends(stop: Stop, line: u16, steps: u16, paused: u16, parts: Parts) -> Ran
    ensures { result ≡ ran_to stop.0 line steps paused parts }
{
    Ran {
        stop,
        line,
        steps,
        paused,
        parts,
    }
}

// A statement's stop ends the run.
fn stops(page: &[u8], stop: Stop, at: Place, steps: u16, parts: Parts) -> Ran
    requires { position at ≤ 65534 }
    ensures { result ≡ ran_to stop.0 (stop_at stop.0 (line_of page.now (position at) ∷ [])) steps (pause_of stop.0 (position at)) parts }
{
    run_ends(
        stop,
        line_of_stop(page, stop, at),
        steps,
        pause(stop, at),
        parts,
    )
}

// A run: steps until it stops, is past the last line, or has spent its budget. A step runs as far as it can without the parts,
// and a turn that ends it takes its stack alone, so that few of them move all of the parts. `left` and `steps` count the budget: they are
// the index of nothing.
pub fn run_steps<'a>(
    from: Onward,
    budget: usize,
    page: &'a [u8],
    input: &[u8],
    sight: Sight,
    vars: &mut [u16],
    memory: &mut [u8],
    output: &mut [u8],
    reply: &mut [u8],
    replies: &mut [u32],
    values: &mut [u16],
    ops: &mut [u32],
    parts: Parts,
    typed: &'a [u8],
    table: &[u16],
) -> Ran
    requires { MayRun page.now ops.old values.old reply.old replies.old (position_of from) budget (world_with vars.old parts memory.old output.old) × Indexed page.now table.now }
    ensures { ran_in result vars.new page.now memory.new output.new
        ≡ run_outcome (run_from budget (env_with (length reply.old) page.now input.now sight (place mark)) (position_of from)
        (world_with vars.old parts memory.old output.old)) page.now }
{
    let lines = Lines { page, table };
    let mut q = from;
    let mut p = parts;
    let mut left = budget;
    let mut steps: u16 = 0;
    loop {
        let Some((count, at, cr)) = fetch(q, page, typed, ops) else {
            return run_ends(Stop::DONE, nibl::NO_LINE, steps, nibl::NOWHERE, p);
        };
        if left == 0 {
            return run_ends(Stop::PAUSED, nibl::NO_LINE, steps, q.pause(), p);
        }
        left -= 1;
        steps += 1;
        let r = statement::run_plain(
            &ops[..count],
            lines,
            p.flags,
            sight,
            p.dos,
            p.fors,
            vars,
            memory,
            values,
        );
        let way = match r {
            Plain::Ends(way) => way,
            Plain::Calls(code, x) => {
                let t = effect::call_turn(code, x, at, lines, p.gosubs);
                p.gosubs = t.stack;
                t.way
            }
            Plain::Loops(code, x) => {
                let t = effect::loop_turn(code, x, at, p.dos);
                p.dos = t.stack;
                t.way
            }
            Plain::Counts(code, arg, x, y, z) => {
                let t = effect::count_turn(code, arg, x, y, z, at, vars, p.fors);
                p.fors = t.stack;
                t.way
            }
            Plain::Needs(i, height) => {
                let d = statement::run_ops_from(
                    &ops[..count],
                    i,
                    height,
                    at,
                    lines,
                    input,
                    sight,
                    vars,
                    memory,
                    output,
                    reply,
                    replies,
                    values,
                    p,
                );
                p = d.parts;
                d.way
            }
        };
        match led_by(way, at, cr) {
            Ok(o) => q = o,
            Err(stop) => return stops(page, stop, at, steps, p),
        }
    }
}
