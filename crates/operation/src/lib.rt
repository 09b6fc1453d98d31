// What operations mean (specs/Operations.antt), that this is what their statement says (proofs/Compiles.antt), and values
// worked out by them, on a stack that is lent: its first `height` slots hold the values, the top last.
#![tactic(auto)]

ghost use Rattle.std.specs.Prelude.{◌+◌, ◌-◌, ◌≤◌, ◌<◌, ◌≡◌, [], length, get_or, drop};
ghost use Rattle.nibl.specs.Page.{used};
ghost use Rattle.nibl.specs.Meaning.{stat_of};
ghost use Rattle.value.specs.Operators.{value_of};
ghost use Rattle.codes.specs.Operators.{op_of};
ghost use Rattle.nibl.specs.found.Read.{replied};
ghost use Rattle.operation.specs.Operations.{takes, value_by, value_step, values_first, variables_of};
ghost use Rattle.operation.specs.Stacks.{sources, sources_of, stack_of, stack_after, height_of, reached_in, reached_height, reached_at, top_in, top_after, reached_top, worked, ReplyRoom, Assigning, assigned_by, assigning};

pub mod sources;

use nibl::access::Sight;
use nibl::stop::Stop;
use sources::Sources;
use word::Cursor;
use world::jump::Way;
use world::{jump, memory};

// The value k below the top, or 0.
pub fn nth(values: &[u16], height: usize, k: usize) -> u16
    ensures { result ≡ get_or (stack_of values.now height) k 0 }
{
    if k < height {
        values.get(height - 1 - k).copied().unwrap_or(0)
    } else {
        0
    }
}

// STAT: bits 4 and 5 of the sense byte, and the flags.
fn stat_of(sense: u8, flags: u8) -> u16
    ensures { result ≡ stat_of sense flags }
{
    u16::from(sense / 16 % 4) * 16 + u16::from(flags)
}

// TOP: the page's used bytes.
fn used_of(page: &[u8]) -> u16
    requires { used page.now < 65536 }
    ensures { result ≡ used page.now }
{
    page::used_bytes(page) as u16
}

// An operator's number; any other number is the last one's.
fn operator(arg: u32) -> u8
    ensures { op_of result ≡ op_of arg }
{
    arg.min(u32::from(codes::OPERATORS - 1)) as u8
}

// How many values a code takes.
fn taken(code: u32) -> usize
    ensures { result ≡ takes code }
{
    match code {
        codes::CONSTANT..=codes::TOP => 0,
        codes::BYTE..=codes::NEGATE => 1,
        _ => 2,
    }
}

// The value of an operation: x is on top of the stack, y below it.
fn value_by(s: Sources, code: u32, arg: u32, x: u16, y: u16) -> Result<u16, Stop>
    ensures { value_of result ≡ value_by (sources_of s.entry) code arg x y }
{
    match code {
        codes::CONSTANT => Ok((arg % 65536) as u16),
        codes::VARIABLE => Ok(jump::var_of(s.vars, arg)),
        codes::STAT => Ok(stat_of(s.sight.sense, s.flags)),
        codes::TOP => Ok(used_of(s.page)),
        codes::BYTE => memory::byte_of(s.sight.access, s.memory, x),
        codes::NOT => Ok(value::invert(x)),
        codes::NEGATE => Ok(value::negate(x)),
        codes::MOD => value::modulo(y, x),
        _ => value::apply(operator(arg), y, x),
    }
}

// One operation on values: how high the stack is then, and the value on top. That on top before is at hand, so that only the one
// below it is read from the stack.
pub fn value_step(
    s: Sources,
    op: u32,
    values: &mut [u16],
    height: usize,
    top: u16,
) -> Result<(usize, u16), Stop>
    requires { (height < length values.old) × (top ≡ top_in values.old height) }
    ensures { (stack_after result values.new ≡ value_step (sources_of s.entry) op (stack_of values.old height))
        × (height_of result ≤ height + 1) × (top_after result ≡ top_in values.new (height_of result)) }
{
    let code = op % codes::CODES;
    let y = nth(values, height, 1);
    let v = value_by(s, code, op / codes::CODES, top, y)?;
    let b = height.saturating_sub(taken(code));
    values[b] = v;
    Ok((b + 1, v))
}

// The value that a list of operations on values leaves on top.
pub fn work_out(s: Sources, ops: &[u32], values: &mut [u16]) -> Result<u16, Stop>
    requires { length ops.now ≤ length values.old }
    ensures { value_of result ≡ worked (sources_of s.entry) ops.now }
{
    let mut height: usize = 0;
    let mut top: u16 = 0;
    for &op in ops {
        (height, top) = value_step(s, op, values, height, top)?;
    }
    Ok(top)
}

// The operations on values that stand next, up to the first effect or the end of the list: the one that is next then, how high the
// stack is and the value on top.
pub fn values_first(
    s: Sources,
    ops: &[u32],
    from: usize,
    values: &mut [u16],
) -> Result<(usize, usize, u16), Stop>
    requires { length ops.now ≤ length values.old }
    ensures { (reached_in result ops.now values.new ≡ values_first (sources_of s.entry) (drop from ops.now) [])
        × (reached_height result ≤ reached_at from result) × (from ≤ reached_at from result) × (reached_top result ≡ top_in values.new (reached_height result)) × (reached_at from result ≤ from + (length ops.now - from)) }
{
    let mut height: usize = 0;
    let mut top: u16 = 0;
    for i in from..ops.len() {
        let op = ops[i];
        if codes::EFFECTS <= op % codes::CODES {
            return Ok((i, height, top));
        }
        (height, top) = value_step(s, op, values, height, top)?;
    }
    Ok((from.max(ops.len()), height, top))
}

// The relations of a reply are worked out in turn, each after the earlier assignments, for the variables that the
// operations have as arguments. None is assigned beyond the variables or the relations, whichever are fewer. The reply was
// read whole before, so there is always a relation to read.
fn assign(
    rest: &[u32],
    n: usize,
    text: &[u8],
    flags: u8,
    sight: Sight,
    page: &[u8],
    vars: &mut [u16],
    memory: &[u8],
    ops: &mut [u32],
    values: &mut [u16],
) -> Way
    requires { Assigning n text.now page.now ops.old values.old }
    ensures { assigned_by result vars.new ≡ assigning (sources vars.old flags sight page.now memory.now) (variables_of rest.now) (replied n text.now) }
{
    let mut c = Cursor { at: 0 };
    for op in &rest[..n.min(rest.len())] {
        let Ok((k, next)) = line::reply_relation(text, c, ops) else {
            return Way::Stop(Stop::BAD_REPLY);
        };
        let s = Sources {
            vars: &*vars,
            flags,
            sight,
            page,
            memory,
        };
        match work_out(s, &ops[..k], values) {
            Ok(x) => jump::set_var(vars, op / codes::CODES, x),
            Err(stop) => {
                return Way::Stop(stop);
            }
        }
        c = next;
    }
    Way::On
}

// A reply: 6 where it is none for so many variables. The reading never lacks room: the operations lent have it.
pub fn take_reply(
    rest: &[u32],
    n: usize,
    text: &[u8],
    flags: u8,
    sight: Sight,
    page: &[u8],
    vars: &mut [u16],
    memory: &[u8],
    ops: &mut [u32],
    values: &mut [u16],
) -> Way
    requires { ReplyRoom text.now page.now ops.old values.old }
    ensures { assigned_by result vars.new ≡ assigning (sources vars.old flags sight page.now memory.now) (variables_of rest.now) (replied n text.now) }
{
    if line::read_reply(text, n, ops).is_err() {
        return Way::Stop(Stop::BAD_REPLY);
    }
    assign(rest, n, text, flags, sight, page, vars, memory, ops, values)
}
