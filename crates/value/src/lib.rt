// 16-bit values: the operators on patterns of 16 bits, and a number's bytes. A pattern is signed where the order or
// the sign counts. Nothing here traps: what has no value is answered by its stop number.
#![tactic(auto)]

ghost use Rattle.std.specs.Prelude.{◌≡◌, ◌+◌, ◌-◌, ◌^◌, ◌<◌, ◌≤◌, length, nat_le, slice_set};
ghost use Rattle.std.proofs.lemmas.List.Edits.{sets};
ghost use Rattle.nibl.specs.Bytes.{byte};
ghost use Rattle.nibl.specs.Values.{add16, sub16, mul16, not16, less16, bit, magnitude, is_negative, mod16, apply, is, digits, printed};
ghost use Rattle.nibl.specs.Tree.{divided_by, equal};
ghost use Rattle.value.specs.Operators.{value_of};
ghost use Rattle.codes.specs.Operators.{op_number, op_of};
ghost use Rattle.value.specs.Writes.{Writes, sign_byte};

use nibl::stop::Stop;

// The first pattern that is negative.
const NEGATIVE: u16 = 32768;

pub fn add(a: u16, b: u16) -> u16
    ensures { result ≡ add16 a b }
{
    a.wrapping_add(b)
}

pub fn sub(a: u16, b: u16) -> u16
    ensures { result ≡ sub16 a b }
{
    a.wrapping_sub(b)
}

// The low 16 bits of the whole product: a multiply of our own and not `wrapping_mul`, as the document names it (docs/DECISIONS.md, Forms).
pub fn mul(a: u16, b: u16) -> u16
    ensures { result ≡ mul16 a b }
{
    (u32::from(a) * u32::from(b) % 65536) as u16
}

// What a leading minus makes of a term.
pub fn negate(a: u16) -> u16
    ensures { result ≡ sub16 0 a }
{
    sub(0, a)
}

// NOT.
pub fn invert(a: u16) -> u16
    ensures { result ≡ not16 a }
{
    !a
}

// The signed order.
pub fn less(a: u16, b: u16) -> bool
    ensures { result ≡ less16 a b }
{
    a.cast_signed() < b.cast_signed()
}

pub fn is_negative(a: u16) -> bool
    ensures { result ≡ is_negative a }
{
    a >= NEGATIVE
}

// The absolute value: that of -32768 is 32768, which is no value of 16 signed bits and is used unsigned.
pub fn magnitude(a: u16) -> u16
    ensures { result ≡ magnitude a }
{
    if is_negative(a) { negate(a) } else { a }
}

#[tactic(auto, unfolding(nibl::specs::Values::apply))]
pub fn quotient(a: u16, b: u16) -> Result<u16, Stop>
    ensures { value_of result ≡ apply divided_by a b }
{
    if b == 0 {
        return Err(Stop::DIVISION_BY_ZERO);
    }
    let q = magnitude(a) / magnitude(b);
    let signed = if is_negative(a) == is_negative(b) {
        q
    } else {
        negate(q)
    };
    Ok(signed)
}

// MOD.
#[tactic(auto, unfolding(nibl::specs::Values::mod16))]
pub fn modulo(a: u16, b: u16) -> Result<u16, Stop>
    ensures { value_of result ≡ mod16 a b }
{
    if b == 0 {
        return Err(Stop::DIVISION_BY_ZERO);
    }
    Ok(magnitude(a) % magnitude(b))
}

// Whether the relation of this number holds.
#[tactic(auto, using(crate::proofs::Laws::op_last), unfolding(nibl::specs::Values::apply, codes::specs::Operators::op_of))]
fn holds(op: u8, a: u16, b: u16) -> bool
    requires { op_number equal ≤ op }
    ensures { is (bit result) ≡ apply (op_of op) a b }
{
    match op {
        codes::OPERATOR_EQUAL => a == b,
        codes::OPERATOR_LESS => less(a, b),
        codes::OPERATOR_GREATER => less(b, a),
        codes::OPERATOR_AT_MOST => !less(b, a),
        codes::OPERATOR_AT_LEAST => !less(a, b),
        _ => a != b,
    }
}

// What the operator of this number makes of its operands.
#[tactic(auto, unfolding(nibl::specs::Values::apply, codes::specs::Operators::op_of))]
pub fn apply(op: u8, a: u16, b: u16) -> Result<u16, Stop>
    ensures { value_of result ≡ apply (op_of op) a b }
{
    match op {
        codes::OPERATOR_TIMES => Ok(mul(a, b)),
        codes::OPERATOR_DIVIDE => quotient(a, b),
        codes::OPERATOR_AND => Ok(a & b),
        codes::OPERATOR_PLUS => Ok(add(a, b)),
        codes::OPERATOR_MINUS => Ok(sub(a, b)),
        codes::OPERATOR_OR => Ok(a | b),
        _ => Ok(u16::from(holds(op, a, b))),
    }
}

// Whether so many bytes fit an output of that length from a position on: the one test of 17.
pub fn has_room(room: usize, at: usize, size: usize) -> bool
    ensures { result ≡ nat_le (at + size) room }
{
    at <= room && size <= room - at
}

// Bytes are put where as many stand, one by one: a library's copy of a part would ask the host for memmove.
pub fn put_bytes(to: &mut [u8], from: &[u8])
    requires { length to.old ≡ length from.now }
    ensures { to.new ≡ from.now }
{
    for i in 0..from.len() {
        to[i] = from[i];
    }
}

// Writes an item from a position of the output on, whole or not at all.
pub fn write_item(output: &mut [u8], at: usize, item: &[u8]) -> Option<usize>
    ensures { Writes output.old at item.now result output.new }
{
    if !has_room(output.len(), at, item.len()) {
        return None;
    }
    let end = at + item.len();
    put_bytes(&mut output[at..end], item);
    Some(end)
}

// How many digits a number has.
pub fn digit_count(n: u16) -> usize
    ensures { result ≡ length (digits n) }
{
    match n {
        ..=9 => 1,
        ..=99 => 2,
        ..=999 => 3,
        ..=9999 => 4,
        _ => 5,
    }
}

// How many bytes a value takes that PRINT writes: its sign, its digits and a space.
pub fn printed_length(v: u16) -> usize
    ensures { result ≡ length (printed v) }
{
    digit_count(magnitude(v)) + 2
}

// What the first of so many digits counts: a power of ten.
fn front_power(count: usize) -> u16
    requires { (1 ≤ count) × (count ≤ 5) }
    ensures { result ≡ 10 ^ (count - 1) }
{
    match count {
        5 => 10000,
        4 => 1000,
        3 => 100,
        2 => 10,
        _ => 1,
    }
}

// A digit goes to the front of the rest of the output.
fn put_digit(rest: &mut [u8], digit: u16)
    requires { (0 < length rest.old) × (digit < 10) }
    ensures { rest.new ≡ slice_set rest.old 0 (byte "0" + digit) }
{
    rest[0] = nibl::ZERO + digit as u8;
}

// The digits of n, `count` of them, go to the front of the rest of the output, where they have room: from the first on, each by
// the power of ten that it counts.
fn put_digits(rest: &mut [u8], count: usize, n: u16)
    requires { (count ≡ length (digits n)) × (count ≤ length rest.old) }
    ensures { rest.new ≡ sets rest.old 0 (digits n) }
{
    let mut left = n;
    for next in 0..count {
        let power = front_power(count - next);
        put_digit(&mut rest[next..], left / power);
        left %= power;
    }
}

// A number's digits, without leading zeros, as LIST writes a line number.
pub fn write_digits(output: &mut [u8], at: usize, n: u16) -> Option<usize>
    ensures { Writes output.old at (digits n) result output.new }
{
    let count = digit_count(n);
    if !has_room(output.len(), at, count) {
        return None;
    }
    put_digits(&mut output[at..], count, n);
    Some(at + count)
}

// "-" or a space.
fn sign_byte(v: u16) -> u8
    ensures { result ≡ sign_byte v }
{
    if is_negative(v) {
        nibl::MINUS
    } else {
        nibl::SPACE
    }
}

// A value as PRINT writes it: its sign, its digits and a space.
#[tactic(auto, using(crate::proofs::Writing::rooms))]
pub fn write_number(output: &mut [u8], at: usize, v: u16) -> Option<usize>
    ensures { Writes output.old at (printed v) result output.new }
{
    let size = printed_length(v);
    if !has_room(output.len(), at, size) {
        return None;
    }
    // both before the digits: the loop then has less to keep on the stack
    output[at] = sign_byte(v);
    output[at + size - 1] = nibl::SPACE;
    put_digits(&mut output[at + 1..], size - 2, magnitude(v));
    Some(at + size)
}
