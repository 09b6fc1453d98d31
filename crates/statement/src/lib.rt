// A statement's operations run. What that needs besides is lent: room for values, for a reply's bytes and its operations.
#![tactic(auto)]

ghost use Rattle.std.specs.Prelude.{◌≤◌, ◌<◌, [], ◌≡◌, length, drop};
ghost use Rattle.nibl.specs.Stack.{no_place};
ghost use Rattle.operation.specs.Operations.{is_last, last_by, run_ops, variables_of};
ghost use Rattle.nibl.specs.Page.{used};
ghost use Rattle.operation.specs.Stacks.{stack_of};
ghost use Rattle.world.specs.Hearing.{hearing, heard_in};
ghost use Rattle.effect.specs.Worlds.{env_with, world_with, did_in};
ghost use Rattle.table.specs.Index.{Indexed};
ghost use Rattle.statement.specs.Lending.{Fair, takes_reply};
ghost use Rattle.statement.specs.Plain.{RunsPlainly, LeftAt};

use effect::{Did, Lines};
use nibl::access::Sight;
use nibl::{ForStack, Parts, Place, PlaceStack};
use operation::sources::Sources;
use world::jump::Way;
use world::{input, memory};

// How far a statement runs without the parts: to its end; up to a turn that ends it and needs its stack alone, by its code and
// what it is given, which is GOSUB or RETURN, DO or UNTIL, FOR or NEXT; or up to an operation that needs them, and how high the
// stack of values is then.
#[derive(Clone, Copy)]
pub enum Plain {
    Ends(Way),
    Calls(u32, u16),
    Loops(u32, u16),
    Counts(u32, u32, u16, u16, u16),
    Needs(usize, usize),
}

// What is lent goes list by list, here and below, and not as a struct: a `&mut [T]` parameter is known to stay as long, but of one in
// a struct behind a `&mut` each contract and each invariant would have to say so; one built for a call and taken apart in it saves nothing.

// INPUT of values: the reply's relations for the variables of the operations that follow.
fn input_values(
    rest: &[u32],
    n: u32,
    page: &[u8],
    input: &[u8],
    sight: Sight,
    vars: &mut [u16],
    memory: &[u8],
    output: &mut [u8],
    reply: &mut [u8],
    replies: &mut [u32],
    values: &mut [u16],
    parts: Parts,
) -> Did
    requires { Fair page.now [] values.old reply.old replies.old }
    ensures { did_in result vars.new memory.now output.new
        ≡ heard_in (world_with vars.old parts memory.now output.old)
        (hearing (length reply.old) input.now parts.inpos output.old parts.outpos) (takes_reply sight page.now (variables_of rest.now) n) }
{
    let r = input::ask(input, parts.inpos, output, parts.outpos, reply);
    let way = match r.said {
        Ok(k) => operation::take_reply(
            rest,
            n as usize,
            &reply[..k],
            parts.flags,
            sight,
            page,
            vars,
            memory,
            replies,
            values,
        ),
        Err(stop) => Way::Stop(stop),
    };
    effect::ends(way, effect::at_positions(parts, r.inpos, r.outpos))
}

// Whether an operation takes the rest of the list as its own.
fn is_last(code: u32) -> bool
    ensures { result ≡ is_last code }
{
    code == codes::STORE_STRING || code == codes::INPUT
}

// Such an operation: the bytes of a string, or the variables of INPUT.
fn last(
    op: u32,
    x: u16,
    rest: &[u32],
    page: &[u8],
    input: &[u8],
    sight: Sight,
    vars: &mut [u16],
    memory: &mut [u8],
    output: &mut [u8],
    reply: &mut [u8],
    replies: &mut [u32],
    values: &mut [u16],
    parts: Parts,
) -> Did
    requires { Fair page.now [] values.old reply.old replies.old }
    ensures { did_in result vars.new memory.new output.new
        ≡ last_by (env_with (length reply.old) page.now input.now sight no_place) op x rest.now (world_with vars.old parts memory.old output.old) }
{
    if op % codes::CODES == codes::STORE_STRING {
        return effect::store_ends(memory::store_args(sight.access, memory, x, rest), parts);
    }
    input_values(
        rest,
        op / codes::CODES,
        page,
        input,
        sight,
        vars,
        memory,
        output,
        reply,
        replies,
        values,
        parts,
    )
}

// What is left to do at an operation that does not act at once. Only where no more operations come behind it is a turn left to
// the run: what it does is then the statement's end.
fn left_at(ops: &[u32], at: usize, values: &[u16], height: usize) -> Plain
    requires { (at < length ops.now) × (height ≤ at) }
    ensures { LeftAt ops.now values.now at height result }
{
    let &[op] = &ops[at..] else {
        return Plain::Needs(at, height);
    };
    let code = op % codes::CODES;
    let x = operation::nth(values, height, 0);
    match code {
        codes::GOSUB | codes::RETURN => Plain::Calls(code, x),
        codes::DO | codes::UNTIL => Plain::Loops(code, x),
        codes::FOR | codes::NEXT => {
            let y = operation::nth(values, height, 1);
            let z = operation::nth(values, height, 2);
            Plain::Counts(code, op / codes::CODES, x, y, z)
        }
        _ => Plain::Needs(at, height),
    }
}

// A statement as far as it runs without the parts: its values and the operations that act at once. The loop's index is what
// `values_first` answers, one operation or more further on.
pub fn run_plain(
    ops: &[u32],
    lines: Lines,
    flags: u8,
    sight: Sight,
    dos: PlaceStack,
    fors: ForStack,
    vars: &mut [u16],
    memory: &[u8],
    values: &mut [u16],
) -> Plain
    requires { (length ops.now ≤ length values.old) × (length lines.page.now ≤ 65535) × (used lines.page.now ≤ 65535) }
    ensures { RunsPlainly ops.now lines.entry.page.now flags sight dos fors vars.old memory.now result vars.new values.new }
{
    let mut i = 0;
    loop {
        let s = Sources {
            vars: &*vars,
            flags,
            sight,
            page: lines.page,
            memory,
        };
        match operation::values_first(s, ops, i, values) {
            Err(stop) => return Plain::Ends(Way::Stop(stop)),
            Ok((j, height, x)) => {
                let Some(&op) = ops.get(j) else {
                    return Plain::Ends(Way::On);
                };
                let a = effect::act(
                    op % codes::CODES,
                    op / codes::CODES,
                    x,
                    lines,
                    vars,
                    dos,
                    fors,
                );
                let Some(way) = a else {
                    return left_at(ops, j, values, height);
                };
                let Way::On = way else {
                    return Plain::Ends(way);
                };
                i = j + 1;
            }
        }
    }
}

// The operations of a statement from one on, where so many values lie on the stack.
pub fn run_ops_from(
    ops: &[u32],
    from: usize,
    filled: usize,
    here: Place,
    lines: Lines,
    input: &[u8],
    sight: Sight,
    vars: &mut [u16],
    memory: &mut [u8],
    output: &mut [u8],
    reply: &mut [u8],
    replies: &mut [u32],
    values: &mut [u16],
    parts: Parts,
) -> Did
    requires { Fair lines.page.now ops.now values.old reply.old replies.old × (filled ≤ from) }
    ensures { did_in result vars.new memory.new output.new
        ≡ run_ops (env_with (length reply.old) lines.entry.page.now input.now sight here) (drop from ops.now)
        (world_with vars.old parts memory.old output.old) (stack_of values.old filled) }
{
    let mut p = parts;
    let mut height = filled;
    let mut rest = ops.get(from..).unwrap_or(&[]);
    while let Some((&op, behind)) = rest.split_first() {
        rest = behind;
        let code = op % codes::CODES;
        let x = operation::nth(values, height, 0);
        if code < codes::EFFECTS {
            let s = Sources {
                vars: &*vars,
                flags: p.flags,
                sight,
                page: lines.page,
                memory: &*memory,
            };
            match operation::value_step(s, op, values, height, x) {
                Ok((n, _)) => height = n,
                Err(stop) => return effect::ends(Way::Stop(stop), p),
            }
        } else if is_last(code) {
            return last(
                op, x, rest, lines.page, input, sight, vars, memory, output, reply, replies,
                values, p,
            );
        } else {
            let y = operation::nth(values, height, 1);
            let z = operation::nth(values, height, 2);
            let d = effect::effect(
                code,
                op / codes::CODES,
                x,
                y,
                z,
                here,
                lines,
                input,
                sight.access,
                vars,
                memory,
                output,
                reply,
                p,
            );
            let Way::On = d.way else {
                return d;
            };
            p = d.parts;
            height = 0;
        }
    }
    effect::ends(Way::On, p)
}

// The operations of one statement.
pub fn run_ops(
    ops: &[u32],
    here: Place,
    page: &[u8],
    input: &[u8],
    sight: Sight,
    vars: &mut [u16],
    memory: &mut [u8],
    output: &mut [u8],
    reply: &mut [u8],
    replies: &mut [u32],
    values: &mut [u16],
    parts: Parts,
    table: &[u16],
) -> Did
    requires { Fair page.now ops.now values.old reply.old replies.old × Indexed page.now table.now }
    ensures { did_in result vars.new memory.new output.new
        ≡ run_ops (env_with (length reply.old) page.now input.now sight here) ops.now (world_with vars.old parts memory.old output.old) [] }
{
    let lines = Lines { page, table };
    run_ops_from(
        ops, 0, 0, here, lines, input, sight, vars, memory, output, reply, replies, values, parts,
    )
}
