// The readers of statements, statement lists, typed lines and replies. Like those of a relation the readers of
// statements go from a state to a state and write the operations of what they read.
#![tactic(auto)]

ghost use Rattle.std.specs.Prelude.{Err, ◌+◌, ◌*◌, ◌-◌, ◌≤◌, ◌<◌, ◌≡◌, [], ◌∷◌, ◌++◌, length, drop, if◌then◌else◌};
ghost use Rattle.std.specs.List.{list_all};
ghost use Rattle.std.proofs.lemmas.List.Edits.{sets};
ghost use Rattle.std.proofs.Math.Seq.{slice};
ghost use Rattle.nibl.specs.Bytes.{is_text, all};
ghost use Rattle.nibl.specs.Words.{number};
ghost use Rattle.nibl.specs.found.Read.{read, factor, relation, key, choose, fail, by_word, let_of, let_cases, a_variable, an_item, joined, printing, for_to, inputting, statement_cases, statement, member};
ghost use Rattle.relation.specs.Code.{values};
ghost use Rattle.codes.specs.Codes.{codes, op, code_input_variable};
ghost use Rattle.relation.specs.Makes.{only, bare};
ghost use Rattle.reader.specs.Code.{texts, item_code, items_code, compile};
ghost use Rattle.reader.specs.Forms.{Room, Spends, KindIs, MayIs, filled_by, Puts, Counted, Countable, copying, going, ending, stepping, variables_into, RemarkIs, FrontIs, EndsIs};
ghost use Rattle.reader.specs.Answers.{has_room, zeros, member_of, member_ops};

use relation::Made;
use word::{Cursor, Word, sign};

// The word that stands next, and the state past it: a variable, a string by its bounds, or a sign.
#[derive(Clone, Copy)]
pub enum Kind {
    Variable(u8, Made),
    Text(usize, usize, Made),
    Sign(u8, Made),
    Other,
}

// How a statement begins, and the state past that: by a variable, with the operation that assigns to it; by a
// symbol; by IF; or by another keyword.
#[derive(Clone, Copy)]
pub enum StatementFront {
    Assigns(u32, Made),
    Symbol(u8, Made),
    If(Made),
    Keyword(u8, Made),
    Other,
}

// Why a text has no reading: the grammar gives it none, or there is no room for its operations.
#[derive(Clone, Copy, PartialEq, Eq)]
pub enum Unread {
    NoReading,
    NoRoom,
}

// The CR that a stored string ends with, as an operation.
const STRING_END: u32 = nibl::CR as u32 * codes::CODES + codes::STRING_BYTE;

// The step of FOR where none is given, as an operation.
const STEP_OF_ONE: u32 = codes::CODES + codes::CONSTANT;

// The longest text: its counts fit into an operation.
const LONGEST_TEXT: usize = 65535;

// The operation of a code that counts.
fn count(n: usize, code: u32) -> u32
    requires { (n ≤ 65536) × (code < codes) }
    ensures { result ≡ op code n }
{
    codes::operation(code, n as u32)
}

fn kind_at(text: &[u8], r: Made) -> Kind
    ensures { KindIs text.now r result }
{
    let Some((c, o)) = r else {
        return Kind::Other;
    };
    match word::word_at(text, c) {
        Word::Variable(v, p) => Kind::Variable(v, Some((p, o))),
        Word::Text(i, j, p) => Kind::Text(i, j, Some((p, o))),
        Word::Sign(k, p) => Kind::Sign(k, Some((p, o))),
        _ => Kind::Other,
    }
}

// Past the sign of this number, if it stands next.
fn past_any(text: &[u8], r: Made, k: u8) -> Made
    ensures { MayIs k text.now r result }
{
    relation::past_sign(text, r, k).or(r)
}

// A relation, and one operation for what is done with its value.
fn with_relation(text: &[u8], r: Made, ops: &mut [u32], v: u32) -> Made
    requires { Room 1 text.now ops.old r }
    ensures { Spends 1 (only (read relation)) bare (λ a. values a ++ (v ∷ [])) text.now ops.old r ops.new result }
{
    let e = relation::read_relation(text, r, ops);
    relation::write(ops, e, v)
}

// A factor, and one operation. With the reader as a parameter, its clause would have to say what each call of it reads.
fn with_factor(text: &[u8], r: Made, ops: &mut [u32], v: u32) -> Made
    requires { Room 1 text.now ops.old r }
    ensures { Spends 1 (only (read factor)) bare (λ a. values a ++ (v ∷ [])) text.now ops.old r ops.new result }
{
    let e = relation::read_factor(text, r, ops);
    relation::write(ops, e, v)
}

// "=", a relation, and the operation that assigns.
fn assigned(text: &[u8], r: Made, ops: &mut [u32], v: u32) -> Made
    requires { Room 0 text.now ops.old r }
    ensures { Spends 0 (only (key "=" (read relation))) bare (λ a. values a ++ (v ∷ [])) text.now ops.old r ops.new result }
{
    let e = relation::past_sign(text, r, sign::EQUAL);
    with_relation(text, e, ops, v)
}

// A variable, and the operation of a code with it.
fn with_variable(text: &[u8], r: Made, ops: &mut [u32], code: u32) -> Made
    requires { Room 0 text.now ops.old r × (code < codes) }
    ensures { Spends 0 (only a_variable) bare (λ v. op code v ∷ []) text.now ops.old r ops.new result }
{
    let Kind::Variable(v, m) = kind_at(text, r) else {
        return None;
    };
    relation::write(ops, m, codes::operation(code, u32::from(v)))
}

// An operation of the code for each byte.
fn put_text(bytes: &[u8], ops: &mut [u32], o: usize, code: u32)
    requires { (o + length bytes.now ≤ length ops.old) × (code < codes) }
    ensures { ops.new ≡ sets ops.old o (texts code bytes.now) }
{
    for (i, b) in bytes.iter().enumerate() {
        ops[o + i] = codes::operation(code, u32::from(*b));
    }
}

// An operation, and those of the bytes of a string.
fn with_text(bytes: &[u8], r: Made, ops: &mut [u32], v: u32, code: u32) -> Made
    requires { (filled_by (1 + length bytes.now) r ≤ length ops.old) × (code < codes) }
    ensures { Puts (v ∷ texts code bytes.now) ops.old r ops.new result }
{
    let (c, o) = r?;
    ops[o] = v;
    put_text(bytes, ops, o + 1, code);
    Some((c, o + 1 + bytes.len()))
}

// What is stored at the address that was read: a string, or the one at another address.
fn copied(text: &[u8], r: Made, ops: &mut [u32]) -> Made
    requires { Room 0 text.now ops.old r }
    ensures { Spends 0 copying values compile text.now ops.old r ops.new result }
{
    match kind_at(text, r) {
        Kind::Text(i, j, m) => {
            let bytes = &text[i..j];
            let n = count(bytes.len() + 1, codes::STORE_STRING);
            let t = with_text(bytes, m, ops, n, codes::STRING_BYTE);
            relation::write(ops, t, STRING_END)
        }
        _ => {
            let d = relation::past_sign(text, r, sign::DOLLAR);
            with_factor(text, d, ops, codes::COPY_STRING)
        }
    }
}

// An assignment to STAT, to a byte or to a string, past its first word.
fn let_form(text: &[u8], r: Made, ops: &mut [u32], k: u8) -> Made
    requires { Room 0 text.now ops.old r }
    ensures { Spends 0 (only (choose let_cases fail k)) bare compile text.now ops.old r ops.new result }
{
    match k {
        sign::STAT => assigned(text, r, ops, codes::SET_STAT),
        sign::AT => {
            let a = relation::read_factor(text, r, ops);
            assigned(text, a, ops, codes::SET_BYTE)
        }
        sign::DOLLAR => {
            let a = relation::read_factor(text, r, ops);
            let e = relation::past_sign(text, a, sign::EQUAL);
            copied(text, e, ops)
        }
        _ => None,
    }
}

// What follows LET.
fn let_at(text: &[u8], r: Made, ops: &mut [u32]) -> Made
    requires { Room 0 text.now ops.old r }
    ensures { Spends 0 (only (by_word let_of)) bare compile text.now ops.old r ops.new result }
{
    match kind_at(text, r) {
        Kind::Variable(v, m) => {
            assigned(
                text,
                m,
                ops,
                codes::operation(codes::SET_VARIABLE, u32::from(v)),
            )
        }
        Kind::Sign(k, m) => let_form(text, m, ops, k),
        _ => None,
    }
}

// What follows GO.
fn go_to(text: &[u8], r: Made, ops: &mut [u32]) -> Made
    requires { Room 0 text.now ops.old r }
    ensures { Spends 0 (only going) bare compile text.now ops.old r ops.new result }
{
    let (k, m) = relation::sign_at(text, r)?;
    match k {
        sign::TO => with_relation(text, m, ops, codes::GOTO),
        sign::SUB => with_relation(text, m, ops, codes::GOSUB),
        _ => None,
    }
}

// An item of PRINT: a string, a stored string or a number.
fn item(text: &[u8], r: Made, ops: &mut [u32]) -> Made
    requires { Room 1 text.now ops.old r }
    ensures { Spends 1 (only an_item) bare item_code text.now ops.old r ops.new result }
{
    match kind_at(text, r) {
        Kind::Text(i, j, m) => {
            let bytes = &text[i..j];
            let n = count(bytes.len(), codes::PRINT_ROOM);
            with_text(bytes, m, ops, n, codes::PRINT_BYTE)
        }
        Kind::Sign(sign::DOLLAR, m) => with_factor(text, m, ops, codes::PRINT_STRING),
        _ => with_relation(text, r, ops, codes::PRINT_NUMBER),
    }
}

// Items joined by commas, in a loop, so that many of them take no more stack than one.
fn items(text: &[u8], r: Made, ops: &mut [u32]) -> Made
    requires { Room 1 text.now ops.old r }
    ensures { Spends 1 (only (joined an_item)) bare items_code text.now ops.old r ops.new result }
{
    let mut s = r;
    loop {
        let a = item(text, s, ops);
        let m = relation::past_sign(text, a, sign::COMMA);
        if m.is_none() {
            return a;
        }
        s = m;
    }
}

// The end of PRINT: ";" or else CR LF.
fn print_end(text: &[u8], r: Made, ops: &mut [u32]) -> Made
    requires { Room 1 text.now ops.old r }
    ensures { Spends 1 ending items_code compile text.now ops.old r ops.new result }
{
    let m = relation::past_sign(text, r, sign::SEMICOLON);
    match m {
        Some(_) => m,
        None => relation::write(ops, r, codes::PRINT_END),
    }
}

// What follows PRINT.
fn print(text: &[u8], r: Made, ops: &mut [u32]) -> Made
    requires { Room 2 text.now ops.old r }
    ensures { Spends 2 (only printing) bare compile text.now ops.old r ops.new result }
{
    let a = items(text, r, ops);
    print_end(text, a, ops)
}

// The step of FOR: 1 where none is given.
fn step(text: &[u8], r: Made, ops: &mut [u32]) -> Made
    requires { Room 1 text.now ops.old r }
    ensures { Spends 1 (only stepping) bare values text.now ops.old r ops.new result }
{
    let m = relation::past_sign(text, r, sign::STEP);
    match m {
        Some(_) => relation::read_relation(text, m, ops),
        None => relation::write(ops, r, STEP_OF_ONE),
    }
}

// What follows FOR.
fn for_to(text: &[u8], r: Made, ops: &mut [u32]) -> Made
    requires { Room 0 text.now ops.old r }
    ensures { Spends 0 (only for_to) bare compile text.now ops.old r ops.new result }
{
    let Kind::Variable(v, m) = kind_at(text, r) else {
        return None;
    };
    let e = relation::past_sign(text, m, sign::EQUAL);
    let a = relation::read_relation(text, e, ops);
    let t = relation::past_sign(text, a, sign::TO);
    let b = relation::read_relation(text, t, ops);
    let s = step(text, b, ops);
    relation::write(ops, s, codes::operation(codes::FOR, u32::from(v)))
}

// Variables joined by commas, each with the operation that gives it a value; in a loop, like items. One loop for both
// would need a trait that names the reader, its operations and its room, which is no plainer.
fn variables(text: &[u8], r: Made, ops: &mut [u32]) -> Made
    requires { Room 0 text.now ops.old r }
    ensures { Spends 0 (only (joined a_variable)) bare (texts code_input_variable) text.now ops.old r ops.new result }
{
    let mut s = r;
    loop {
        let v = with_variable(text, s, ops, codes::INPUT_VARIABLE);
        let m = relation::past_sign(text, v, sign::COMMA);
        if m.is_none() {
            return v;
        }
        s = m;
    }
}

// The operation at r asks for as many variables as were written behind it up to s.
fn counted(ops: &mut [u32], r: Made, s: Made) -> Made
    requires { Countable ops.old r s }
    ensures { Counted ops.old r s ops.new result }
{
    let (_, o) = r?;
    let (_, n) = s?;
    ops[o] = count(n - o - 1, codes::INPUT);
    s
}

// The variables of INPUT, behind an operation with their number.
fn counted_variables(text: &[u8], r: Made, ops: &mut [u32]) -> Made
    requires { Room 1 text.now ops.old r }
    ensures { Spends 1 (only (joined a_variable)) bare variables_into text.now ops.old r ops.new result }
{
    let a = relation::write(ops, r, codes::INPUT);
    let s = variables(text, a, ops);
    counted(ops, r, s)
}

// What follows INPUT.
fn input(text: &[u8], r: Made, ops: &mut [u32]) -> Made
    requires { Room 1 text.now ops.old r }
    ensures { Spends 1 (only inputting) bare compile text.now ops.old r ops.new result }
{
    let m = relation::past_sign(text, r, sign::DOLLAR);
    match m {
        Some(_) => with_factor(text, m, ops, codes::INPUT_STRING),
        None => counted_variables(text, r, ops),
    }
}

// Whether nothing but text bytes is left.
fn all_text(text: &[u8], from: usize) -> bool
    ensures { result ≡ list_all is_text (drop from text.now) }
{
    text.iter().skip(from).all(|b| letter::is_text(*b))
}

// What follows REM: the rest of the text.
fn remark(text: &[u8], r: Made) -> Made
    ensures { RemarkIs text.now r result }
{
    let (c, o) = r?;
    if all_text(text, c.at) {
        return Some((Cursor { at: text.len() }, o));
    }
    None
}

// A statement past its keyword, which is not IF.
fn form(text: &[u8], r: Made, ops: &mut [u32], k: u8) -> Made
    requires { Room 2 text.now ops.old r × (k ≡ number "IF" → ⊥) }
    ensures { Spends 2 (only (choose (statement_cases statement) fail k)) bare compile text.now ops.old r ops.new result }
{
    match k {
        sign::LET => let_at(text, r, ops),
        sign::GOTO => with_relation(text, r, ops, codes::GOTO),
        sign::GOSUB => with_relation(text, r, ops, codes::GOSUB),
        sign::GO => go_to(text, r, ops),
        sign::RETURN => relation::write(ops, r, codes::RETURN),
        sign::PR => print(text, r, ops),
        sign::PRINT => print(text, r, ops),
        sign::DO => relation::write(ops, r, codes::DO),
        sign::UNTIL => with_relation(text, r, ops, codes::UNTIL),
        sign::FOR => for_to(text, r, ops),
        sign::NEXT => with_variable(text, r, ops, codes::NEXT),
        sign::INPUT => input(text, r, ops),
        sign::REM => remark(text, r),
        sign::END => relation::write(ops, r, codes::END),
        _ => let_form(text, r, ops, k),
    }
}

// How a statement begins.
fn front_at(text: &[u8], r: Made) -> StatementFront
    ensures { FrontIs text.now r result }
{
    match kind_at(text, r) {
        Kind::Variable(v, m) => {
            StatementFront::Assigns(codes::operation(codes::SET_VARIABLE, u32::from(v)), m)
        }
        Kind::Sign(k, m) => {
            if k < sign::KEYWORD {
                return StatementFront::Symbol(k, m);
            }
            if k == sign::IF {
                return StatementFront::If(m);
            }
            StatementFront::Keyword(k, m)
        }
        _ => StatementFront::Other,
    }
}

// A statement. IF reads its relation and goes on with the statement behind it, in a loop like items.
fn read_statement(text: &[u8], r: Made, ops: &mut [u32]) -> Made
    requires { Room 0 text.now ops.old r }
    ensures { Spends 0 (only statement) bare compile text.now ops.old r ops.new result }
{
    let mut s = r;
    loop {
        match front_at(text, s) {
            StatementFront::Assigns(v, m) => {
                return assigned(text, m, ops, v);
            }
            StatementFront::Symbol(k, m) => {
                return let_form(text, m, ops, k);
            }
            StatementFront::If(m) => {
                let a = relation::read_relation(text, m, ops);
                let t = past_any(text, a, sign::THEN);
                s = relation::write(ops, t, codes::IF);
            }
            StatementFront::Keyword(k, m) => {
                return form(text, m, ops, k);
            }
            StatementFront::Other => {
                return None;
            }
        }
    }
}

// How a member ends: with the text, or at a ":".
fn member_end(text: &[u8], r: Made) -> Option<(usize, usize)>
    ensures { EndsIs text.now r result }
{
    let (c, n) = r?;
    match word::word_at(text, c) {
        Word::End => Some((n, 0)),
        Word::Sign(sign::COLON, p) => Some((n, text.len() - p.at + 1)),
        _ => None,
    }
}

// Zeros throughout: what the operations are where there is no reading.
pub fn clear(ops: &mut [u32])
    ensures { ops.new ≡ zeros ops.old }
{
    ops.fill(0);
}

// Whether there is room for the operations of any reading of a text: one to each byte, and a text whose counts
// fit into an operation.
pub fn has_room(text: &[u8], ops: &[u32]) -> bool
    ensures { result ≡ has_room text.now ops.now }
{
    text.len() <= ops.len() && text.len() <= LONGEST_TEXT
}

// The first member of a text, with its operations from 0 on: their number, and how many bytes stand from its end on, 0
// where that is the text's end. Where it has no reading the operations are zeros.
pub fn read_member(text: &[u8], ops: &mut [u32]) -> Result<(usize, usize), Unread>
    ensures value { result ≡ (if has_room text.now ops.old then member_of (member text.now) else Err Unread.NoRoom) }
    ensures ops_after { ops.new ≡ (if has_room text.now ops.old then member_ops ops.old (member text.now) else ops.old) }
{
    if !has_room(text, ops) {
        return Err(Unread::NoRoom);
    }
    let s = read_statement(text, Some((Cursor { at: 0 }, 0)), ops);
    let Some(m) = member_end(text, s) else {
        clear(ops);
        return Err(Unread::NoReading);
    };
    Ok(m)
}
