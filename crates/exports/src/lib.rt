// The calls as a host makes them: only numbers, pointers and lengths cross. The record is updated where it stands, and the
// answer is written where the host keeps it. Each entry calls the by-value core and stores its result; nothing is asked of what
// is lent, and what is not in range is refused.
#![tactic(auto)]

ghost use Rattle.std.specs.Prelude.{◌≡◌};
ghost use Rattle.nibl.specs.Lent.{lent_all, left_all};
ghost use Rattle.nibl.specs.Calls.{leaves, take_line, continue_run};
ghost use Rattle.nibl.specs.Carry.{saves, loads};

use nibl::{Answer, Call, Session};

#[unsafe(no_mangle)]
pub extern "C" fn nibl_take_line(
    rec: &mut Session,
    page: &mut [u8],
    memory: &mut [u8],
    input: &[u8],
    output: &mut [u8],
    call: &Call,
    answer: &mut Answer,
    table: &mut [u16],
)
    ensures { left_all answer.new rec.new page.new memory.new output.new table.new
        ≡ leaves take_line (lent_all rec.old page.old memory.old input.now output.old call.now table.old) }
{
    let done = calls::take_line(*rec, page, memory, input, output, *call, table);
    *rec = done.session;
    *answer = done.answer;
}

#[unsafe(no_mangle)]
pub extern "C" fn nibl_continue_run(
    rec: &mut Session,
    page: &mut [u8],
    memory: &mut [u8],
    input: &[u8],
    output: &mut [u8],
    call: &Call,
    answer: &mut Answer,
    table: &mut [u16],
)
    ensures { left_all answer.new rec.new page.new memory.new output.new table.new
        ≡ leaves continue_run (lent_all rec.old page.old memory.old input.now output.old call.now table.old) }
{
    let done = calls::continue_run(*rec, page, memory, input, output, *call, table);
    *rec = done.session;
    *answer = done.answer;
}

#[unsafe(no_mangle)]
pub extern "C" fn nibl_save(
    rec: &mut Session,
    page: &mut [u8],
    memory: &mut [u8],
    input: &[u8],
    output: &mut [u8],
    call: &Call,
    answer: &mut Answer,
    table: &mut [u16],
)
    ensures { left_all answer.new rec.new page.new memory.new output.new table.new ≡ saves (lent_all rec.old page.old memory.old input.now output.old call.now table.old) }
{
    let done = carry::save(*rec, page, memory, input, output, *call, table);
    *rec = done.session;
    *answer = done.answer;
}

#[unsafe(no_mangle)]
pub extern "C" fn nibl_load(
    rec: &mut Session,
    page: &mut [u8],
    memory: &mut [u8],
    input: &[u8],
    output: &mut [u8],
    call: &Call,
    answer: &mut Answer,
    table: &mut [u16],
)
    ensures { left_all answer.new rec.new page.new memory.new output.new table.new ≡ loads (lent_all rec.old page.old memory.old input.now output.old call.now table.old) }
{
    let done = carry::load(*rec, page, memory, input, output, *call, table);
    *rec = done.session;
    *answer = done.answer;
}
