// The readers of a relation. They call each other in a cycle while the unread bytes of the text fall, and write
// the operations of what they read into a lent list of numbers, which has room for one to each byte. Those of the
// cycle are handed a position and lent the number of operations so far, and answer the position past what they read:
// numbers stay in registers, where a state goes through memory and costs more than the reading. Each is called in one
// place, or in a function that is, so that the compiler works one into another: two frames lie on the stack for each
// open bracket. For the others a state is what they go from and to, so that readers follow one another with no test
// between them: where one finds no reading, the rest of them pass that on.
#![tactic(auto)]

ghost use Rattle.std.specs.Prelude.{◌+◌, ◌≤◌, ◌<◌, ◌≡◌, true, false, length, drop, get_or, set};
ghost use Rattle.nibl.specs.Bytes.{is_space, is_digit, starts};
ghost use Rattle.nibl.specs.Grammar.{factor_joints, term_joints, sum_joints};
ghost use Rattle.nibl.specs.found.Read.{read, factor, term, sum, relation};
ghost use Rattle.word.specs.Found.{is_lone};
ghost use Rattle.codes.specs.Codes.{op, code_operator};
ghost use Rattle.codes.specs.Operators.{operator_count};
ghost use Rattle.relation.specs.Code.{values};
ghost use Rattle.relation.specs.Makes.{need, filled, standing, made_of, waiting, settled, SignIs, KeyIs, Written, Makes, MakesAt, pairing, JointIs, LeadIs, OperandIs, Rest, FormIs, Followed, Closed};

use word::{Cursor, Word, sign};

// The cursor past what was read and the number of operations so far, or no reading.
pub type Made = Option<(Cursor, usize)>;

// The sign that stands next, by its number, and the state past it.
pub fn sign_at(text: &[u8], r: Made) -> Option<(u8, Made)>
    ensures { SignIs text.now r result }
{
    let (c, o) = r?;
    match word::word_at(text, c) {
        Word::Sign(k, p) => Some((k, Some((p, o)))),
        _ => None,
    }
}

// Past the sign of this number, which must stand next.
pub fn past_sign(text: &[u8], r: Made, k: u8) -> Made
    ensures { KeyIs k text.now r result }
{
    let (j, past) = sign_at(text, r)?;
    if j == k { past } else { None }
}

// One operation more.
pub fn write(ops: &mut [u32], r: Made, v: u32) -> Made
    requires { filled r ≤ length ops.old }
    ensures { Written v ops.old r ops.new result }
{
    let (c, o) = r?;
    ops[o] = v;
    Some((c, o + 1))
}

// One operation more behind the n there are.
fn put(ops: &mut [u32], n: &mut usize, v: u32)
    requires { n.old < length ops.old }
    ensures { (ops.new ≡ set ops.old n.old v) × (n.new ≡ n.old + 1) }
{
    let o = *n;
    ops[o] = v;
    *n = o + 1;
}

// The operation that waited for its last operand, if any.
fn settle(ops: &mut [u32], n: &mut usize, waits: Option<u32>)
    requires { n.old + waiting waits ≤ length ops.old }
    ensures { (ops.new ≡ settled waits ops.old n.old) × (n.new ≡ n.old + waiting waits) }
{
    if let Some(v) = waits {
        put(ops, n, v);
    }
}

// An operator that ends at a position: its operation waits for the operand behind it.
fn joined(k: u8, past: usize) -> Option<(usize, u32)>
    requires { k < operator_count }
    ensures { result ≡ Some (past, op code_operator k) }
{
    Some((past, codes::operation(codes::OPERATOR, u32::from(k))))
}

// The operator that joins factors, where one stands next, by the position past it and its operation. The three lists are
// asked for one spelling after another, and not by a walk over a table: what is asked for is known where it is compiled,
// and that a pair is asked for before its first symbol is proved of these lines.
fn times_at(text: &[u8], from: usize) -> Option<(usize, u32)>
    ensures { JointIs factor_joints text.now from result }
{
    let i = word::space_end(text, from);
    if word::stands(text, i, b"*") {
        return joined(codes::OPERATOR_TIMES, i + 1);
    }
    if word::stands(text, i, b"/") {
        return joined(codes::OPERATOR_DIVIDE, i + 1);
    }
    if word::stands(text, i, b"AND") {
        return joined(codes::OPERATOR_AND, i + 3);
    }
    None
}

// The operator that joins terms.
fn plus_at(text: &[u8], from: usize) -> Option<(usize, u32)>
    ensures { JointIs term_joints text.now from result }
{
    let i = word::space_end(text, from);
    if word::stands(text, i, b"+") {
        return joined(codes::OPERATOR_PLUS, i + 1);
    }
    if word::stands(text, i, b"-") {
        return joined(codes::OPERATOR_MINUS, i + 1);
    }
    if word::stands(text, i, b"OR") {
        return joined(codes::OPERATOR_OR, i + 2);
    }
    None
}

// The operator that compares sums. A pair is asked for before the symbol that it begins with.
fn compare_at(text: &[u8], from: usize) -> Option<(usize, u32)>
    ensures { JointIs sum_joints text.now from result }
{
    let i = word::space_end(text, from);
    if word::stands(text, i, b"=") {
        return joined(codes::OPERATOR_EQUAL, i + 1);
    }
    if word::stands(text, i, b"<=") {
        return joined(codes::OPERATOR_AT_MOST, i + 2);
    }
    if word::stands(text, i, b"<>") {
        return joined(codes::OPERATOR_UNEQUAL, i + 2);
    }
    if word::stands(text, i, b"<") {
        return joined(codes::OPERATOR_LESS, i + 1);
    }
    if word::stands(text, i, b">=") {
        return joined(codes::OPERATOR_AT_LEAST, i + 2);
    }
    if word::stands(text, i, b">") {
        return joined(codes::OPERATOR_GREATER, i + 1);
    }
    None
}

// How a sum begins, and the operation that waits for its first term: a minus takes the whole of it, and a plus is passed over.
fn lead_at(text: &[u8], from: usize) -> (usize, Option<u32>)
    ensures { LeadIs text.now from result.0 result.1 }
{
    let i = word::space_end(text, from);
    if word::stands(text, i, b"-") {
        return (i + 1, Some(codes::NEGATE));
    }
    if word::stands(text, i, b"+") {
        return (i + 1, None);
    }
    (from, None)
}

// The constant whose first digit stands at a position.
fn decimal_at(text: &[u8], at: usize, ops: &mut [u32], n: &mut usize) -> Option<usize>
    requires { (need 0 text.now (standing at n.old) ≤ length ops.old) × (at < length text.now) × (is_digit (get_or text.now at 0) ≡ true) }
    ensures { OperandIs text.now ops.old at n.old ops.new result n.new }
{
    match word::decimal_at(text, at) {
        Ok((v, d)) => {
            put(ops, n, codes::operation(codes::CONSTANT, u32::from(v)));
            Some(d)
        }
        Err(_) => None,
    }
}

// The operands that most are: a variable or a decimal constant.
fn operand_at(text: &[u8], at: usize, ops: &mut [u32], n: &mut usize) -> Option<usize>
    requires { (need 0 text.now (standing at n.old) ≤ length ops.old) × (starts is_space (drop at text.now) ≡ false) }
    ensures { OperandIs text.now ops.old at n.old ops.new result n.new }
{
    let b = word::byte_at(text, at);
    if letter::is_digit(b) {
        return decimal_at(text, at, ops, n);
    }
    if word::is_variable(text, at) {
        put(
            ops,
            n,
            codes::operation(codes::VARIABLE, u32::from(b - letter::A)),
        );
        return Some(at + 1);
    }
    None
}

// The constant whose "#" stands at a position.
fn hex_at(text: &[u8], at: usize, ops: &mut [u32], n: &mut usize) -> Option<usize>
    requires { (need 0 text.now (standing at n.old) ≤ length ops.old) × (get_or text.now at 0 ≡ 35) }
    ensures { MakesAt factor text.now ops.old at n.old ops.new result n.new }
{
    let (v, d) = word::hex_at(text, at + 1)?;
    put(ops, n, codes::operation(codes::CONSTANT, u32::from(v)));
    Some(d)
}

// The sign that a factor begins with at a position, by its number.
fn form_at(text: &[u8], at: usize) -> Option<u8>
    requires { starts is_space (drop at text.now) ≡ false }
    ensures { FormIs text.now at result }
{
    if word::stands(text, at, b"(") {
        return Some(sign::OPEN);
    }
    if word::stands(text, at, b"@") {
        return Some(sign::AT);
    }
    if word::stands(text, at, b"STAT") {
        return Some(sign::STAT);
    }
    if word::stands(text, at, b"TOP") {
        return Some(sign::TOP);
    }
    if word::stands(text, at, b"NOT") {
        return Some(sign::NOT);
    }
    if word::stands(text, at, b"MOD") {
        return Some(sign::MOD);
    }
    None
}

// A relation, and the symbol that must stand behind it.
#[cycle(readers)]
#[inline(always)]
fn closed(text: &[u8], at: usize, k: u8, ops: &mut [u32], n: &mut usize) -> Option<usize>
    requires { (need 0 text.now (standing at n.old) ≤ length ops.old) × (is_lone k ≡ true) }
    ensures { Closed k text.now ops.old (standing at n.old) ops.new (made_of result n.new) }
{
    let d = relation_at(text, at, ops, n)?;
    word::past_symbol(text, d, k)
}

// What stands behind MOD.
#[cycle(readers)]
fn modulo_at(text: &[u8], at: usize, ops: &mut [u32], n: &mut usize) -> Option<usize>
    requires { need 0 text.now (standing at n.old) ≤ length ops.old }
    ensures { Makes pairing values text.now ops.old (standing at n.old) ops.new (made_of result n.new) }
{
    let a = word::past_symbol(text, at, sign::OPEN)?;
    let b = closed(text, a, sign::COMMA, ops, n)?;
    let c = closed(text, b, sign::CLOSE, ops, n)?;
    put(ops, n, codes::MOD);
    Some(c)
}

// A factor that is neither a variable nor a decimal constant: another constant, STAT or TOP; a relation in parentheses;
// "@" or NOT before a factor; MOD of two relations.
#[cycle(readers)]
fn factor_rest(text: &[u8], at: usize, ops: &mut [u32], n: &mut usize) -> Option<usize>
    requires { (need 0 text.now (standing at n.old) ≤ length ops.old) × Rest text.now at }
    ensures { MakesAt factor text.now ops.old at n.old ops.new result n.new }
{
    if word::byte_at(text, at) == word::HASH {
        return hex_at(text, at, ops, n);
    }
    let form = form_at(text, at)?;
    match form {
        sign::OPEN => closed(text, at + 1, sign::CLOSE, ops, n),
        sign::AT => followed(text, at + 1, Some(codes::BYTE), ops, n),
        sign::STAT => {
            put(ops, n, codes::STAT);
            Some(at + 4)
        }
        sign::TOP => {
            put(ops, n, codes::TOP);
            Some(at + 3)
        }
        sign::NOT => followed(text, at + 3, Some(codes::NOT), ops, n),
        sign::MOD => modulo_at(text, at + 3, ops, n),
        _ => None,
    }
}

// A factor.
#[cycle(readers)]
#[inline(always)]
fn factor_at(text: &[u8], from: usize, ops: &mut [u32], n: &mut usize) -> Option<usize>
    requires { need 0 text.now (standing from n.old) ≤ length ops.old }
    ensures { MakesAt factor text.now ops.old from n.old ops.new result n.new }
{
    let i = word::space_end(text, from);
    let operand = operand_at(text, i, ops, n);
    if operand.is_some() {
        return operand;
    }
    factor_rest(text, i, ops, n)
}

// A factor, and the operation that waits for it, if any.
#[cycle(readers)]
#[inline(always)]
fn followed(
    text: &[u8],
    from: usize,
    waits: Option<u32>,
    ops: &mut [u32],
    n: &mut usize,
) -> Option<usize>
    requires { need (waiting waits) text.now (standing from n.old) ≤ length ops.old }
    ensures { Followed waits text.now ops.old (standing from n.old) ops.new (made_of result n.new) }
{
    let d = factor_at(text, from, ops, n)?;
    settle(ops, n, waits);
    Some(d)
}

// A factor, and those joined to it by * / AND.
#[cycle(readers)]
fn term_at(text: &[u8], from: usize, ops: &mut [u32], n: &mut usize) -> Option<usize>
    requires { need 0 text.now (standing from n.old) ≤ length ops.old }
    ensures { MakesAt term text.now ops.old from n.old ops.new result n.new }
{
    let mut waits = None;
    let mut at = from;
    loop {
        let d = followed(text, at, waits, ops, n)?;
        let Some((past, v)) = times_at(text, d) else {
            return Some(d);
        };
        at = past;
        waits = Some(v);
    }
}

// A sign or none, a term, and those joined to it by + - OR.
#[cycle(readers)]
fn sum_at(text: &[u8], from: usize, ops: &mut [u32], n: &mut usize) -> Option<usize>
    requires { need 0 text.now (standing from n.old) ≤ length ops.old }
    ensures { MakesAt sum text.now ops.old from n.old ops.new result n.new }
{
    let (mut at, mut waits) = lead_at(text, from);
    loop {
        let d = term_at(text, at, ops, n)?;
        settle(ops, n, waits);
        let Some((past, v)) = plus_at(text, d) else {
            return Some(d);
        };
        at = past;
        waits = Some(v);
    }
}

// A sum, and another that it is compared with, if any.
#[cycle(readers)]
fn relation_at(text: &[u8], from: usize, ops: &mut [u32], n: &mut usize) -> Option<usize>
    requires { need 0 text.now (standing from n.old) ≤ length ops.old }
    ensures { MakesAt relation text.now ops.old from n.old ops.new result n.new }
{
    let mut waits = None;
    let mut at = from;
    loop {
        let d = sum_at(text, at, ops, n)?;
        if let Some(v) = waits {
            put(ops, n, v);
            return Some(d);
        }
        let Some((past, compares)) = compare_at(text, d) else {
            return Some(d);
        };
        at = past;
        waits = Some(compares);
    }
}

// A factor from a state on. It and `read_relation` stay two: which reader of the cycle is called is known where it is compiled, and as one
// function with a closure the clause would have to say what the closure reads.
pub fn read_factor(text: &[u8], r: Made, ops: &mut [u32]) -> Made
    requires { need 0 text.now r ≤ length ops.old }
    ensures { Makes (read factor) values text.now ops.old r ops.new result }
{
    let (c, mut n) = r?;
    let at = factor_at(text, c.at, ops, &mut n)?;
    Some((Cursor { at }, n))
}

// A relation from a state on.
pub fn read_relation(text: &[u8], r: Made, ops: &mut [u32]) -> Made
    requires { need 0 text.now r ≤ length ops.old }
    ensures { Makes (read relation) values text.now ops.old r ops.new result }
{
    let (c, mut n) = r?;
    let at = relation_at(text, c.at, ops, &mut n)?;
    Some((Cursor { at }, n))
}
