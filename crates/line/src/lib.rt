// The readers of statement lists and their ends, of typed lines and of replies. They read whole texts, by the
// reader of a member and that of a relation, in a lent list of operations that has room for one to each byte.
#![tactic(auto)]

ghost use Rattle.std.specs.Prelude.{Ok, Err, ◌≤◌, ◌≡◌, true, false, length, take, drop, if◌then◌else◌};
ghost use Rattle.std.specs.List.{list_any};
ghost use Rattle.std.specs.Result.{result_ok};
ghost use Rattle.nibl.specs.Bytes.{is_space, all};
ghost use Rattle.nibl.specs.found.Read.{a_decimal, or_else, unread, choose, reading, replied, numbered, alone_statement, command_cases, typed};
ghost use Rattle.nibl.specs.found.Read.{alone as alone_at};
ghost use Rattle.nibl.specs.Tree.{list};
ghost use Rattle.nibl.specs.Page.{ends_of, is_among};
ghost use Rattle.reader.specs.Answers.{has_room, zeros};
ghost use Rattle.line.specs.Answers.{list_of, members_of, is_command, needing, kind_of, line_ops, plain, by_front, replying, relation_of, relation_ops};

use nibl::LineNumber;
use reader::Unread;
use word::{Cursor, Word, sign};

// A typed line. A stored text begins at its cursor. Of an immediate statement: the number of its operations, and
// whether it is one that only a program may have.
#[derive(Clone, Copy)]
pub enum LineRead {
    Blank,
    Delete(LineNumber),
    Store(LineNumber, Cursor),
    New,
    Clear,
    Run,
    List(LineNumber),
    Immediate(usize, bool),
    NoReading,
    NoRoom,
}

// The members of a list, one after the other, each in the part behind the ":" of the last, and whether one of them ends
// at p.
fn members(text: &[u8], p: usize, ops: &mut [u32]) -> Option<bool>
    requires { has_room text.now ops.old ≡ true }
    ensures { result ≡ members_of false (length text.now) p (reading text.now) }
{
    let mut at = 0;
    let mut met = false;
    loop {
        let (_, left) = reader::read_member(&text[at..], ops).ok()?;
        let end = text.len() - left;
        met |= p == end;
        let last = left == 0;
        if last {
            return Some(met);
        }
        at = end + 1;
    }
}

// Whether a text is a statement list.
pub fn read_list(text: &[u8], ops: &mut [u32]) -> Result<(), Unread>
    ensures value { result ≡ (if has_room text.now ops.old then list_of (reading text.now) else Err Unread.NoRoom) }
    ensures ops_after { ops.new ≡ (if has_room text.now ops.old then zeros ops.old else ops.old) }
{
    if !reader::has_room(text, ops) {
        return Err(Unread::NoRoom);
    }
    let m = members(text, 0, ops);
    reader::clear(ops);
    match m {
        Some(_) => Ok(()),
        None => Err(Unread::NoReading),
    }
}

// Whether p is the end of one of the members of a text. A text that is no statement list has none.
pub fn ends_member(text: &[u8], p: usize, ops: &mut [u32]) -> Result<bool, Unread>
    ensures value { result ≡ (if has_room text.now ops.old then Ok (is_among (ends_of 0 (length text.now) (reading text.now)) p) else Err Unread.NoRoom) }
    ensures ops_after { ops.new ≡ (if has_room text.now ops.old then zeros ops.old else ops.old) }
{
    if !reader::has_room(text, ops) {
        return Err(Unread::NoRoom);
    }
    let m = members(text, p, ops);
    reader::clear(ops);
    Ok(m.unwrap_or(false))
}

// What a line is, if nothing but spaces follows.
fn alone(text: &[u8], c: Cursor, r: LineRead) -> LineRead
    ensures { result ≡ (if all is_space (drop c.at text.now) then r else LineRead.NoReading) }
{
    if word::is_blank(text, c) {
        r
    } else {
        LineRead::NoReading
    }
}

// What follows LIST: a decimal constant, or nothing.
fn list_from(text: &[u8], c: Cursor) -> LineRead
    ensures { result ≡ kind_of (length text.now) (or_else (a_decimal (drop c.at text.now)) (λ n. alone_at (list n)) (alone_at (list 0)) (drop c.at text.now)) }
{
    match word::word_at(text, c) {
        Word::Decimal(n, d) => alone(text, d, LineRead::List(LineNumber(n))),
        _ => alone(text, c, LineRead::List(LineNumber(0))),
    }
}

// Whether a sign at the front of an immediate line is a command: NEW, CLEAR, LIST or RUN.
fn is_command(k: u8) -> bool
    ensures { result ≡ is_command k }
{
    matches!(k, sign::NEW..=sign::RUN)
}

// A line past its command, by the command's number.
fn command(text: &[u8], k: u8, c: Cursor) -> LineRead
    ensures { result ≡ kind_of (length text.now) (choose command_cases unread k (drop c.at text.now)) }
{
    match k {
        sign::NEW => alone(text, c, LineRead::New),
        sign::CLEAR => alone(text, c, LineRead::Clear),
        sign::LIST => list_from(text, c),
        sign::RUN => alone(text, c, LineRead::Run),
        _ => LineRead::NoReading,
    }
}

// Whether an operation is of a statement that only a program may have.
fn program_only(v: u32) -> bool
    ensures { result ≡ needing v }
{
    matches!(v % codes::CODES, codes::DO..=codes::INPUT_STRING)
}

// Whether one of the first n operations is of a statement that only a program may have.
fn needs_program(ops: &[u32], n: usize) -> bool
    requires { n ≤ length ops.now }
    ensures { result ≡ list_any needing (take n ops.now) }
{
    ops[..n].iter().any(|v| program_only(*v))
}

// One statement, with its operations.
fn immediate(text: &[u8], ops: &mut [u32]) -> LineRead
    requires { has_room text.now ops.old ≡ true }
    ensures value { result ≡ kind_of (length text.now) (alone_statement text.now) }
    ensures ops_after { ops.new ≡ line_ops ops.old (alone_statement text.now) }
{
    let Ok((n, left)) = reader::read_member(text, ops) else {
        return LineRead::NoReading;
    };
    if left != 0 {
        reader::clear(ops);
        return LineRead::NoReading;
    }
    LineRead::Immediate(n, needs_program(ops, n))
}

// A line with a number. What follows its last digit is the text, handed on from there without a copy.
fn numbered_line(text: &[u8], n: LineNumber, c: Cursor, ops: &mut [u32]) -> LineRead
    requires { (has_room text.now ops.old ≡ true) × (c.at ≤ length text.now) }
    ensures value { result ≡ kind_of (length text.now) (numbered n.0 (drop c.at text.now)) }
    ensures ops_after { ops.new ≡ zeros ops.old }
{
    if word::is_blank(text, c) {
        reader::clear(ops);
        return LineRead::Delete(n);
    }
    let at = c.at;
    let m = members(&text[at..], 0, ops);
    reader::clear(ops);
    match m {
        Some(_) => LineRead::Store(n, c),
        None => LineRead::NoReading,
    }
}

// A line that is no command: nothing, a line with a number, or one statement.
fn plain_line(text: &[u8], ops: &mut [u32]) -> LineRead
    requires { has_room text.now ops.old ≡ true }
    ensures value { result ≡ kind_of (length text.now) (plain text.now) }
    ensures ops_after { ops.new ≡ line_ops ops.old (plain text.now) }
{
    match word::word_at(text, Cursor { at: 0 }) {
        Word::End => {
            reader::clear(ops);
            LineRead::Blank
        }
        Word::Decimal(n, c) => numbered_line(text, LineNumber(n), c, ops),
        _ => immediate(text, ops),
    }
}

// The command at the front of a line, if one stands there. It is asked for first: where one stands no keyword begins, and
// to find that none does costs more than all the rest. A look at three letters keeps other lines from asking.
fn at_front(text: &[u8]) -> Option<(u8, Cursor)>
    ensures { typed text.now ≡ by_front text.now result }
{
    if !word::may_command(text, Cursor { at: 0 }) {
        return None;
    }
    let Word::Sign(k, c) = word::command_at(text, Cursor { at: 0 }) else {
        return None;
    };
    if is_command(k) {
        return Some((k, c));
    }
    None
}

// What a typed line is. The operations of an immediate statement stand from 0 on, with zeros for any other line.
pub fn read_line(text: &[u8], ops: &mut [u32]) -> LineRead
    ensures value { result ≡ (if has_room text.now ops.old then kind_of (length text.now) (typed text.now) else LineRead.NoRoom) }
    ensures ops_after { ops.new ≡ (if has_room text.now ops.old then line_ops ops.old (typed text.now) else ops.old) }
{
    if !reader::has_room(text, ops) {
        return LineRead::NoRoom;
    }
    let Some((k, c)) = at_front(text) else {
        return plain_line(text, ops);
    };
    reader::clear(ops);
    command(text, k, c)
}

// The last relation of a reply: what stands behind a comma after it is ignored.
fn last_relation(text: &[u8], at: usize, ops: &mut [u32]) -> Option<()>
    requires { has_room text.now ops.old ≡ true }
    ensures { result ≡ result_ok (list_of (replied 1 (drop at text.now))) }
{
    let r = relation::read_relation(text, Some((Cursor { at }, 0)), ops);
    let (c, _) = r?;
    if word::is_blank(text, c) {
        return Some(());
    }
    relation::past_sign(text, r, sign::COMMA)?;
    Some(())
}

// The relations of a reply, one after the other, with a comma between them.
fn relations(text: &[u8], n: usize, ops: &mut [u32]) -> Option<()>
    requires { has_room text.now ops.old ≡ true }
    ensures { result ≡ result_ok (list_of (replied n text.now)) }
{
    if n == 0 {
        return None;
    }
    let mut at = 0;
    for _ in 1..n {
        let r = relation::read_relation(text, Some((Cursor { at }, 0)), ops);
        let (c, _) = relation::past_sign(text, r, sign::COMMA)?;
        at = c.at;
    }
    last_relation(text, at, ops)
}

// Whether a text is a reply for n variables.
pub fn read_reply(text: &[u8], n: usize, ops: &mut [u32]) -> Result<(), Unread>
    ensures value { result ≡ (if has_room text.now ops.old then list_of (replied n text.now) else Err Unread.NoRoom) }
    ensures ops_after { ops.new ≡ (if has_room text.now ops.old then zeros ops.old else ops.old) }
{
    if !reader::has_room(text, ops) {
        return Err(Unread::NoRoom);
    }
    let r = relations(text, n, ops);
    reader::clear(ops);
    r.ok_or(Unread::NoReading)
}

// The relation of a reply that stands at a cursor, with its operations from 0 on: their number, and the cursor past it
// and the comma behind it. Where there is none they are zeros.
pub fn reply_relation(text: &[u8], c: Cursor, ops: &mut [u32]) -> Result<(usize, Cursor), Unread>
    ensures value { result ≡ (if has_room text.now ops.old then relation_of (length text.now) (replying (drop c.at text.now)) else Err Unread.NoRoom) }
    ensures ops_after { ops.new ≡ (if has_room text.now ops.old then relation_ops ops.old (replying (drop c.at text.now)) else ops.old) }
{
    if !reader::has_room(text, ops) {
        return Err(Unread::NoRoom);
    }
    let r = relation::read_relation(text, Some((c, 0)), ops);
    let Some((d, n)) = r else {
        reader::clear(ops);
        return Err(Unread::NoReading);
    };
    match relation::past_sign(text, r, sign::COMMA) {
        Some((e, _)) => Ok((n, e)),
        None => Ok((n, d)),
    }
}
