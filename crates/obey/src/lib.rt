// A typed line past the first refusals: gathered, read once, and obeyed.
#![tactic(auto)]

ghost use Rattle.std.specs.Prelude.{◌≤◌, ◌≡◌, length, drop};
ghost use Rattle.nibl.specs.Typing.{gather as gathered};
ghost use Rattle.nibl.specs.Record.{place, mark, unpaused};
ghost use Rattle.nibl.specs.found.Read.{typed as reading_of};
ghost use Rattle.nibl.specs.found.Column.{column_of};
ghost use Rattle.nibl.specs.Lent.{lent_all, sight_of};
ghost use Rattle.nibl.specs.Typing.{limit};
ghost use Rattle.nibl.specs.Calls.{obey_read, obey_line};
ghost use Rattle.effect.specs.Worlds.{env_with};
ghost use Rattle.line.specs.Answers.{kind_of, line_ops};
ghost use Rattle.outcome.specs.Ends.{ended_in, world_at};
ghost use Rattle.outcome.specs.Lends.{Lists, Accepted};
ghost use Rattle.table.specs.Index.{Indexed, kept_true};
ghost use Rattle.obey.specs.ReadAs.{ReadAs};

use letter::Gathering;
use line::LineRead;
use nibl::stop::Stop;
use nibl::{Call, Onward, Session};
use outcome::Ended;
use page::Where;

// What a typed line does, by what it was read as. The call's positions are past the line, and the pause has ended.
fn obey(
    kind: LineRead,
    session: Session,
    page: &mut [u8],
    memory: &mut [u8],
    input: &[u8],
    output: &mut [u8],
    call: Call,
    typed: &[u8],
    reply: &mut [u8],
    replies: &mut [u32],
    values: &mut [u16],
    ops: &mut [u32],
    table: &mut [u16],
) -> Ended
    requires { (Lists reply.old replies.old values.old ops.old × Accepted (length reply.old) page.old call.budget session × ReadAs typed.now kind ops.old) × Indexed page.old table.old }
    ensures output_after { ended_in result page.new memory.new output.new
        ≡ obey_read call.budget (env_with (length reply.old) page.old input.now (sight_of call) (place mark))
        (world_at session memory.old output.old call.inpos call.outpos) (column_of typed.now) (reading_of typed.now) }
    ensures table_after { table.new ≡ kept_true page.new table.old }
{
    let Call { inpos, outpos, .. } = call;
    match kind {
        LineRead::Blank => outcome::stopped(Stop::DONE, session, inpos, outpos),
        LineRead::New => outcome::edited(table::new_page(page, table), session, inpos, outpos),
        LineRead::Delete(number) => outcome::edited(
            table::delete_line(page, number, table),
            session,
            inpos,
            outpos,
        ),
        LineRead::Store(number, c) => outcome::edited(
            table::store_line(page, number, &typed[c.at..], table),
            session,
            inpos,
            outpos,
        ),
        LineRead::Clear => outcome::stopped(Stop::DONE, session.cleared(), inpos, outpos),
        LineRead::List(number) => outcome::list(page, number, output, session, inpos, outpos),
        LineRead::Run => outcome::run_from(
            Onward::Start,
            session.cleared(),
            page,
            memory,
            input,
            output,
            call,
            typed,
            reply,
            replies,
            values,
            ops,
            table,
        ),
        LineRead::Immediate(n, needs) => {
            if needs {
                return outcome::stopped(Stop::NOT_IMMEDIATE, session, inpos, outpos);
            }
            outcome::immediate(
                n, session, page, memory, input, output, call, typed, reply, replies, values, ops,
                table,
            )
        }
        LineRead::NoReading => outcome::refused(
            column::column_of(typed) as u16,
            session,
            inpos,
            outpos,
        ),
        // no typed line lacks room: see `read_typed`
        LineRead::NoRoom => outcome::stopped(Stop::NO_READING, session, inpos, outpos),
    }
}

// What was typed is read once, from the part that holds the running statement. Only a text longer than 65,535 bytes lacks
// room, and a typed line is none.
fn read_typed<'a>(page: &'a [u8], typed: &'a [u8], ops: &mut [u32]) -> LineRead
    requires { (length typed.now ≤ length ops.old) × (length typed.now ≤ 65535) }
    ensures value { result ≡ kind_of (length typed.now) (reading_of typed.now) }
    ensures ops_after { ops.new ≡ line_ops ops.old (reading_of typed.now) }
{
    let text = page::running(page, typed, Where::Line);
    line::read_line(text, ops)
}

// A typed line past the first refusals: 7 where no CR is left, then 5 for one that is over-long, with the limit as its column.
pub fn typed_line(
    rec: Session,
    page: &mut [u8],
    memory: &mut [u8],
    input: &[u8],
    output: &mut [u8],
    call: Call,
    line: &mut [u8],
    reply: &mut [u8],
    replies: &mut [u32],
    values: &mut [u16],
    ops: &mut [u32],
    table: &mut [u16],
) -> Ended
    requires { (Lists reply.old replies.old values.old ops.old × (length line.old ≡ length reply.old) × Accepted (length reply.old) page.old call.budget (unpaused rec) × (length reply.old ≤ limit))
        × Indexed page.old table.old }
    ensures output_after { ended_in result page.new memory.new output.new
        ≡ obey_line (length reply.old) (lent_all rec page.old memory.old input.now output.old call table.old)
        (gathered (length reply.old) (drop call.inpos input.now)) }
    ensures table_after { table.new ≡ kept_true page.new table.old }
{
    match letter::gather(input, call.inpos, line) {
        Gathering::NoCr => outcome::stopped(Stop::NO_CR, rec, call.inpos, call.outpos),
        Gathering::TooLong(at) => outcome::refused(
            line.len() as u16,
            rec.unpaused(),
            at,
            call.outpos,
        ),
        Gathering::Line(at, n) => {
            let kind = read_typed(page, &line[..n], ops);
            obey(
                kind,
                rec.unpaused(),
                page,
                memory,
                input,
                output,
                call.at(at, call.outpos),
                &line[..n],
                reply,
                replies,
                values,
                ops,
                table,
            )
        }
    }
}
