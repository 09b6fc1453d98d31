// What one operation does to the world: memory, output, stacks, variables, the positions.
// The record is taken apart: the variables are lent, the rest and the call's positions go by value, as `Parts`.
#![tactic(auto)]

ghost use Rattle.std.specs.Prelude.{◌+◌, ◌≤◌, ◌%◌, [], ◌∷◌, ◌≡◌, leb, eqb, length, set, if◌then◌else◌};
ghost use Rattle.nibl.specs.Bytes.{byte_cr, byte_lf};
ghost use Rattle.nibl.specs.Meaning.{on, skip, stop};
ghost use Rattle.world.specs.Turns.{way_of, turned, turned_for};
ghost use Rattle.value.specs.Writes.{Writes};
ghost use Rattle.table.specs.Index.{Indexed};
ghost use Rattle.effect.specs.Lines.{indexed_prop};
ghost use Rattle.operation.specs.Operations.{effect_by};
ghost use Rattle.effect.specs.Worlds.{unsensing, env_with, world_with, did, did_in, stored_way, wrote_in, KeepsVars, put_stored, keep_reply};
ghost use Rattle.nibl.specs.Record.{with_flags_in, with_gosubs_in, with_dos_in, with_fors_in, parts_at};
ghost use Rattle.effect.specs.Acts.{acted, act_by, goes_back, way_at_once, call_turn, loop_turn, count_turn};

use nibl::access::Access;
use nibl::stop::Stop;
use nibl::{ForStack, Onward, Parts, Place, PlaceStack};
use world::jump::{Turn, Way};
use world::{input, jump, memory};

// A page, and the table of where its lines begin, which is empty where none is lent.
#[derive(Clone, Copy)]
pub struct Lines<'a> {
    pub page: &'a [u8],
    pub table: &'a [u16],
    ghost indexed: { Indexed page.now table.now } by { indexed_prop page.now table.now },
}

// How a statement ended, and the parts then.
#[derive(Clone, Copy)]
pub struct Did {
    pub way: Way,
    pub parts: Parts,
}

pub fn ends(way: Way, parts: Parts) -> Did
    ensures { result ≡ did way parts }
{
    Did { way, parts }
}

// An assignment to STAT.
fn set_stat(x: u16, parts: Parts) -> Did
    ensures { result ≡ did Way.On (with_flags_in parts (x % 8)) }
{
    let flags = (x % nibl::FLAGS) as u8;
    ends(Way::On, Parts { flags, ..parts })
}

// An assignment to a variable.
fn set_variable(vars: &mut [u16], v: u32, x: u16, parts: Parts) -> Did
    ensures value { result ≡ did Way.On parts }
    ensures vars_after { vars.new ≡ set vars.old v x }
{
    jump::set_var(vars, v, x);
    ends(Way::On, parts)
}

fn in_gosubs(t: Turn<PlaceStack>, parts: Parts) -> Did
    ensures { result ≡ did t.way (with_gosubs_in parts t.stack) }
{
    let gosubs = t.stack;
    ends(t.way, Parts { gosubs, ..parts })
}

fn in_dos(t: Turn<PlaceStack>, parts: Parts) -> Did
    ensures { result ≡ did t.way (with_dos_in parts t.stack) }
{
    let dos = t.stack;
    ends(t.way, Parts { dos, ..parts })
}

fn in_fors(t: Turn<ForStack>, parts: Parts) -> Did
    ensures { result ≡ did t.way (with_fors_in parts t.stack) }
{
    let fors = t.stack;
    ends(t.way, Parts { fors, ..parts })
}

// A store's end.
pub fn store_ends(k: Result<(), Stop>, parts: Parts) -> Did
    ensures { result ≡ did (stored_way k) parts }
{
    match k {
        Ok(()) => ends(Way::On, parts),
        Err(stop) => ends(Way::Stop(stop), parts),
    }
}

// An output item's end: it is out whole, or 17.
fn item_ends(w: Option<usize>, parts: Parts) -> Did
    ensures { result ≡ wrote_in parts w }
{
    match w {
        Some(outpos) => ends(Way::On, Parts { outpos, ..parts }),
        None => ends(Way::Stop(Stop::OUTPUT_FULL), parts),
    }
}

// The parts after a reply was asked for.
pub fn at_positions(parts: Parts, inpos: usize, outpos: usize) -> Parts
    ensures { result ≡ parts_at parts inpos outpos }
{
    Parts {
        inpos,
        outpos,
        ..parts
    }
}

// Whether an item of n bytes fits.
fn print_room(output: &[u8], at: usize, n: u32) -> Way
    ensures { way_of result ≡ (if leb (at + n) (length output.now) then on else stop 17) }
{
    if value::has_room(output.len(), at, n as usize) {
        Way::On
    } else {
        Way::Stop(Stop::OUTPUT_FULL)
    }
}

// One byte of a string.
fn print_byte(output: &mut [u8], at: usize, b: u8) -> Option<usize>
    ensures { Writes output.old at (b ∷ []) result output.new }
{
    value::write_item(output, at, &[b])
}

// CR LF.
fn print_end(output: &mut [u8], at: usize) -> Option<usize>
    ensures { Writes output.old at (byte_cr ∷ byte_lf ∷ []) result output.new }
{
    value::write_item(output, at, &[nibl::CR, nibl::LF])
}

// PRINT of a stored string: 16 comes before 17.
fn print_string(access: Access, memory: &[u8], a: u16, output: &mut [u8], parts: Parts) -> Did
    ensures { KeepsVars parts memory.now output.old (put_stored access a) result memory.now output.new }
{
    match memory::string_end(access, memory, a) {
        Err(stop) => ends(Way::Stop(stop), parts),
        Ok(end) => item_ends(
            value::write_item(output, parts.outpos, &memory[a as usize..end]),
            parts,
        ),
    }
}

// `u8::try_from` refuses what is wider; here the low byte is meant.
fn low_byte(arg: u32) -> u8
    ensures { result ≡ arg % 256 }
{
    (arg % 256) as u8
}

// IF goes on to the next record on 0.
fn if_way(x: u16) -> Way
    ensures { way_of result ≡ (if eqb x 0 then skip else on) }
{
    if x == 0 { Way::Skip } else { Way::On }
}

// A NEXT or an UNTIL that goes back ends so; any other needs the parts.
fn back_ends(b: Option<Place>) -> Option<Way>
    ensures { way_at_once result ≡ goes_back b }
{
    b.map(|p| Way::Go(Onward::After(p)))
}

// The operations that act at once, without the parts: an assignment to a variable, IF, GOTO, and UNTIL and NEXT where they go
// back. They change no more than the variables.
pub fn act(
    code: u32,
    arg: u32,
    x: u16,
    lines: Lines,
    vars: &mut [u16],
    dos: PlaceStack,
    fors: ForStack,
) -> Option<Way>
    ensures { acted result vars.new ≡ act_by lines.entry.page.now dos fors code arg x vars.old }
{
    match code {
        codes::SET_VARIABLE => {
            jump::set_var(vars, arg, x);
            Some(Way::On)
        }
        codes::IF => Some(if_way(x)),
        codes::GOTO => Some(jump::go_to(lines.page, x, lines.table)),
        codes::UNTIL => back_ends(jump::until_back(dos, x)),
        codes::NEXT => back_ends(jump::next_back(fors, vars, low_byte(arg))),
        _ => None,
    }
}

// The turns: the operations that end their statement and change one stack. Each is given that stack alone.

// GOSUB, and RETURN for any other code.
pub fn call_turn(
    code: u32,
    x: u16,
    here: Place,
    lines: Lines,
    gosubs: PlaceStack,
) -> Turn<PlaceStack>
    ensures { turned result ≡ call_turn lines.entry.page.now here gosubs code x }
{
    if code == codes::GOSUB {
        return jump::go_sub(lines.page, x, here, gosubs, lines.table);
    }
    jump::return_from(gosubs)
}

// DO, and UNTIL for any other code.
pub fn loop_turn(code: u32, x: u16, here: Place, dos: PlaceStack) -> Turn<PlaceStack>
    ensures { turned result ≡ loop_turn here dos code x }
{
    if code == codes::DO {
        return jump::do_here(dos, here);
    }
    jump::until(dos, x)
}

// FOR, and NEXT for any other code.
pub fn count_turn(
    code: u32,
    arg: u32,
    x: u16,
    y: u16,
    z: u16,
    here: Place,
    vars: &mut [u16],
    fors: ForStack,
) -> Turn<ForStack>
    ensures { turned_for result vars.new ≡ count_turn here fors vars.old code arg x y z }
{
    if code == codes::FOR {
        return jump::for_here(fors, here, vars, low_byte(arg), z, y, x);
    }
    jump::next_of(fors, vars, low_byte(arg))
}

// INPUT of a string: the reply and its CR go into memory.
fn input_string(
    x: u16,
    input: &[u8],
    access: Access,
    memory: &mut [u8],
    output: &mut [u8],
    reply: &mut [u8],
    parts: Parts,
) -> Did
    ensures { KeepsVars parts memory.old output.old (keep_reply access (length reply.old) input.now x) result memory.new output.new }
{
    let r = input::ask(input, parts.inpos, output, parts.outpos, reply);
    let then = at_positions(parts, r.inpos, r.outpos);
    match r.said {
        Ok(n) => store_ends(memory::store_text(access, memory, x, &reply[..n]), then),
        Err(stop) => ends(Way::Stop(stop), then),
    }
}

// An operation that changes the world: x is the value on top, y and z lie below it.
// The last arm is END: of the codes that come here, no reading writes another besides those above.
pub fn effect(
    code: u32,
    arg: u32,
    x: u16,
    y: u16,
    z: u16,
    here: Place,
    lines: Lines,
    input: &[u8],
    access: Access,
    vars: &mut [u16],
    memory: &mut [u8],
    output: &mut [u8],
    reply: &mut [u8],
    parts: Parts,
) -> Did
    requires { length lines.page.now ≤ 65535 }
    ensures { did_in result vars.new memory.new output.new
        ≡ effect_by (env_with (length reply.old) lines.entry.page.now input.now (unsensing access) here) code arg x y z (world_with vars.old parts memory.old output.old) }
{
    match code {
        codes::SET_VARIABLE => set_variable(vars, arg, x, parts),
        codes::SET_STAT => set_stat(x, parts),
        codes::SET_BYTE => store_ends(memory::store_byte(access, memory, y, x), parts),
        codes::COPY_STRING => store_ends(memory::copy_string(access, memory, y, x), parts),
        codes::GOTO => ends(jump::go_to(lines.page, x, lines.table), parts),
        codes::GOSUB => in_gosubs(
            jump::go_sub(lines.page, x, here, parts.gosubs, lines.table),
            parts,
        ),
        codes::RETURN => in_gosubs(jump::return_from(parts.gosubs), parts),
        codes::PRINT_ROOM => ends(print_room(output, parts.outpos, arg), parts),
        codes::PRINT_BYTE => item_ends(print_byte(output, parts.outpos, low_byte(arg)), parts),
        codes::PRINT_STRING => print_string(access, memory, x, output, parts),
        codes::PRINT_NUMBER => item_ends(value::write_number(output, parts.outpos, x), parts),
        codes::PRINT_END => item_ends(print_end(output, parts.outpos), parts),
        codes::IF => ends(if_way(x), parts),
        codes::DO => in_dos(jump::do_here(parts.dos, here), parts),
        codes::UNTIL => in_dos(jump::until(parts.dos, x), parts),
        codes::FOR => in_fors(
            jump::for_here(parts.fors, here, vars, low_byte(arg), z, y, x),
            parts,
        ),
        codes::NEXT => in_fors(jump::next_of(parts.fors, vars, low_byte(arg)), parts),
        codes::INPUT_STRING => input_string(x, input, access, memory, output, reply, parts),
        _ => ends(Way::Stop(Stop::END), parts),
    }
}
