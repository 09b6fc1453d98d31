// Does a piece of work of the proved code round after round, for its time to be held against the model's: see bench/run.
// Standard input has the work's number, the number of rounds, LF and the bytes to work on. It writes the sum of what the
// rounds found, which is to be the model's too.
#![tactic(auto)]

ghost use Rattle.std.specs.Prelude.{◌≡◌, ◌-◌, ◌<◌, ◌≤◌, length, IfSome};
ghost use Rattle.table.specs.Index.{Indexed};

use nibl::access::{Access, Sight};
use nibl::{Call, ForEntry, ForStack, LineNumber, Onward, Place, PlaceStack, Session};
use page::Edited;
use std::io::{self, Read};
use word::{Cursor, Word};

// The most bytes that are read.
const INPUT: usize = 65536;

// A work that goes by a table.
#[derive(Clone, Copy)]
enum TableWork {
    Spread,
    Steps,
}

// Any other work.
#[derive(Clone, Copy)]
enum Work {
    Words,
    Members,
    Edits,
    Finds,
    Check,
    Steps,
    Typed,
    // Typed with all stacks full.
    TypedFull,
    Alone,
    Spread,
    Numbers,
    Runs,
    Lists,
    Saves,
    Loads,
}

impl Work {
    // The works by their numbers, but those that go by a table: see `sum_of`.
    fn of(number: u16) -> Option<Work> {
        Some(match number {
            0 => Work::Words,
            1 => Work::Members,
            2..=4 => Work::Edits,
            5..=7 => Work::Finds,
            8 => Work::Check,
            9 | 12 | 13 => Work::Steps,
            10 => Work::Typed,
            11 => Work::TypedFull,
            14 => Work::Alone,
            15 => Work::Spread,
            18 => Work::Numbers,
            19 => Work::Runs,
            20 => Work::Lists,
            21 => Work::Saves,
            22 => Work::Loads,
            _ => return None,
        })
    }
}

// How many bytes the values take that are written, and where the last digit is put.
const VALUES: usize = 2000;

const LAST_DIGIT: usize = 6998;

// Where the page's byte stands that a typed line changes: a digit of the middle line.
const CHANGED: usize = 2005;

// A word's number, so that no word can be left unread.
fn number(w: Word) -> u16 {
    match w {
        Word::Variable(v, _) => u16::from(v),
        Word::Decimal(n, _) | Word::Hex(n, _) => n,
        Word::Sign(k, _) => u16::from(k),
        Word::Text(..) | Word::End | Word::Wrong(_) => 0,
    }
}

// The position past a word, if one stands there.
fn past(w: Word) -> Option<usize> {
    match w {
        Word::Variable(_, next)
        | Word::Decimal(_, next)
        | Word::Hex(_, next)
        | Word::Text(_, _, next)
        | Word::Sign(_, next) => Some(next.at),
        Word::End | Word::Wrong(_) => None,
    }
}

// The words of a text, one after the other; it has no more of them than bytes.
fn words(text: &[u8]) -> u16 {
    let mut sum: u16 = 0;
    let mut at = 0;
    for _ in 0..text.len() {
        let w = word::word_at(text, Cursor { at });
        sum = sum.wrapping_add(number(w));
        let Some(next) = past(w) else {
            break;
        };
        if next == text.len() {
            break;
        }
        at = next;
    }
    sum
}

fn add(sum: u16, found: usize) -> u16 {
    sum.wrapping_add((found % 65536) as u16)
}

// Where the first member from a position on ends; at the text's end where none stands.
fn member_end(text: &[u8], from: usize, ops: &mut [u32]) -> usize
    requires { from < length text.now }
    ensures { (from ≤ result) × (result ≤ length text.now) }
{
    let stop = text.len();
    let Ok((_, left)) = reader::read_member(&text[from..], ops) else {
        return stop;
    };
    if stop - from < left {
        return stop;
    }
    stop - left
}

// The sum of where a text's members end.
fn text_members(text: &[u8], ops: &mut [u32]) -> u16 {
    let mut sum: u16 = 0;
    let mut from = 0;
    while from < text.len() {
        let end = member_end(text, from, ops);
        sum = add(sum, end);
        from = end + 1;
    }
    sum
}

// How many bytes a record has, where one is whole.
fn size_at(page: &[u8], at: usize) -> Option<usize>
    requires { at ≤ length page.now }
    ensures { IfSome result (λ n. (5 ≤ n) × (n ≤ length page.now - at)) }
{
    let left = page.len() - at;
    if left < 5 || page[at] == nibl::END_MARK {
        return None;
    }
    let size = usize::from(page[at + 2]);
    (5 <= size && size <= left).then_some(size)
}

// The members of a page's texts.
fn members(page: &[u8], ops: &mut [u32]) -> u16 {
    let mut sum: u16 = 0;
    let mut at = 0;
    while let Some(size) = size_at(page, at) {
        sum = sum.wrapping_add(text_members(&page[at + 3..at + size - 1], ops));
        at += size;
    }
    sum
}

// The byte at a position, if there is one.
fn byte_at(bytes: &[u8], at: usize) -> usize {
    bytes.get(at).copied().map_or(0, usize::from)
}

// The line in the middle of a full page gets a text; a byte behind it.
fn edit(page: &mut [u8], text: &[u8]) -> usize
    ensures { length page.new ≡ length page.old }
{
    let mut unlent = [0u16; 1];
    match table::store_line(page, LineNumber(510), text, &mut unlent[..0]) {
        Edited::Done => byte_at(page, 2600),
        _ => 0,
    }
}

fn edits(page: &mut [u8]) -> u16
    ensures { length page.new ≡ length page.old }
{
    let a = edit(page, b" A=A+1");
    let b = edit(
        page,
        b" PRINT \"COW\",C,\" GATE \",STAT AND 3;: REM OPEN: SHUT",
    );
    add(add(0, a), b)
}

fn found(f: Option<Onward>) -> usize {
    match f {
        None => 0,
        Some(o) => o.position() + 1,
    }
}

// The places before the lines of a page of 200 lines.
fn finds(page: &[u8]) -> u16 {
    let mut sum: u16 = 0;
    for k in 0..200 {
        sum = add(sum, found(page::find_line(page, LineNumber(7 * k))));
    }
    sum
}

// The places before the lines of a page of 600 lines: every third number below 660, of which some are not there.
fn spread(page: &[u8], table: &[u16]) -> u16
    requires { Indexed page.now table.now }
{
    let mut sum: u16 = 0;
    for k in 0..220 {
        sum = add(sum, found(table::find_line(page, LineNumber(3 * k), table)));
    }
    sum
}

fn check(page: &[u8]) -> u16 {
    u16::from(places::is_good(page, nibl::LIMIT))
}

// A run from the program's start, lent no more than the page and its table: its steps, and variable A.
fn steps(page: &[u8], session: Session, table: &[u16]) -> u16
    requires { Indexed page.now table.now }
{
    if 4096 < page.len() {
        return 0;
    }
    if !places::is_good(page, nibl::LIMIT) {
        return 0;
    }
    if !record::fits(page, session) {
        return 0;
    }
    let sight = Sight {
        sense: 0,
        access: Access::whole(),
    };
    let mut memory = [0u8; 1];
    let mut output = [0u8; 1];
    let mut ops = [0u32; nibl::ROOM];
    let mut values = [0u16; nibl::ROOM];
    let mut reply = [0u8; nibl::LIMIT];
    let mut replies = [0u32; nibl::LIMIT];
    let mut vars = session.vars;
    let ran = run::run_steps(
        Onward::Start,
        32767,
        page,
        b"",
        sight,
        &mut vars,
        &mut memory,
        &mut output,
        &mut reply,
        &mut replies,
        &mut values,
        &mut ops,
        session.parts(0, 0),
        b"",
        table,
    );
    ran.steps.wrapping_add(vars[0])
}

// The CR of the line before the middle one.
const BEFORE: usize = 1968;

// A record whose stacks are full and that is paused: 21 places, all of them that CR.
fn full() -> Session {
    let there = Place::at(BEFORE);
    let entry = ForEntry {
        var: 8,
        limit: 8,
        step: 1,
        place: there,
    };
    let stack = PlaceStack {
        depth: 8,
        places: [there; 8],
    };
    Session {
        vars: [0u16; nibl::VARIABLES],
        flags: 0,
        gosubs: stack,
        dos: stack,
        fors: ForStack {
            depth: 4,
            entries: [entry; 4],
        },
        paused: nibl::paused_at(BEFORE + 1),
    }
}

// A call that takes its input, and writes its output, from the first byte on.
fn from_the_front(budget: usize) -> Call {
    Call {
        inpos: 0,
        outpos: 0,
        sense: 0,
        budget,
        tabled: 0,
    }
}

// A typed line: its stop and column, how far the input was taken, how many places are left, and the page's byte that the line
// changes.
fn take(page: &mut [u8], session: Session, input: &[u8]) -> u16
    ensures { length page.new ≡ length page.old }
{
    let mut memory = [0u8; 1];
    let mut output = [0u8; 1];
    let mut unlent = [0u16; 1];
    let ended = calls::take_line(
        session,
        page,
        &mut memory,
        input,
        &mut output,
        from_the_front(0),
        &mut unlent,
    );
    let answer = ended.answer;
    let spot = u16::from(answer.stop).wrapping_add(answer.column);
    let sum = add(add(spot, answer.inpos), ended.session.gosubs.depth);
    add(sum, byte_at(page, CHANGED))
}

// The middle line of a full page is typed anew, with the other one of two digits: the page stays as full as it was.
fn typed(page: &mut [u8], session: Session) -> u16
    ensures { length page.new ≡ length page.old }
{
    let line = match page.get(CHANGED) {
        Some(b'3') => b"510 PRINT \"COW\",C,\" GATE \",STAT AND 4;: REM OPEN: SHUT\r",
        Some(_) => b"510 PRINT \"COW\",C,\" GATE \",STAT AND 3;: REM OPEN: SHUT\r",
        None => return 0,
    };
    take(page, session, line)
}

// A line that prints, typed on a page: the steps that it takes till the output is full or nothing is left to print, where its
// output ends, and a byte of it.
fn prints(page: &mut [u8], line: &[u8]) -> u16
    ensures { length page.new ≡ length page.old }
{
    let mut memory = [0u8; 1];
    let mut output = [0u8; 4096];
    let mut unlent = [0u16; 1];
    let ended = calls::take_line(
        Session::fresh(),
        page,
        &mut memory,
        line,
        &mut output,
        from_the_front(32767),
        &mut unlent,
    );
    let answer = ended.answer;
    let sum = add(answer.steps, answer.outpos);
    add(sum, usize::from(output[2000]))
}

// A page and 1,024 bytes of memory are saved: the stop, where the form ends, and a byte of it.
fn saves(page: &mut [u8]) -> u16
    ensures { length page.new ≡ length page.old }
{
    let mut memory = [7u8; 1024];
    let input = [0u8; 1];
    let mut output = [0u8; 5176];
    let mut unlent = [0u16; 1];
    let ended = carry::save(
        Session::fresh(),
        page,
        &mut memory,
        &input,
        &mut output,
        from_the_front(0),
        &mut unlent,
    );
    let answer = ended.answer;
    let sum = add(u16::from(answer.stop), answer.outpos);
    add(sum, usize::from(output[2000]))
}

// A form of a page and 1,024 bytes of memory is loaded: the stop, a byte of the page, and one of the memory.
fn loads(form: &[u8]) -> u16 {
    let mut page = [0u8; 4096];
    let mut memory = [0u8; 1024];
    let mut output = [0u8; 1];
    let mut unlent = [0u16; 1];
    let ended = carry::load(
        Session::fresh(),
        &mut page,
        &mut memory,
        form,
        &mut output,
        from_the_front(0),
        &mut unlent,
    );
    let sum = add(u16::from(ended.answer.stop), usize::from(page[2000]));
    add(sum, usize::from(memory[1000]))
}

// The values of the first bytes are written behind them, one after the other: where they end, and the last digit.
fn numbers(bytes: &mut [u8]) -> u16
    ensures { length bytes.new ≡ length bytes.old }
{
    if bytes.len() <= VALUES {
        return 0;
    }
    let mut end = VALUES;
    for k in 0..VALUES / 2 {
        let v = u16::from_be_bytes([bytes[2 * k], bytes[2 * k + 1]]);
        if let Some(next) = value::write_number(bytes, end, v) {
            end = next;
        }
    }
    match bytes.get(LAST_DIGIT) {
        Some(digit) => add(add(0, end), usize::from(*digit)),
        None => 0,
    }
}

// A line that is typed on an empty page.
fn alone(line: &[u8]) -> u16 {
    let mut page = [nibl::END_MARK; 128];
    take(&mut page, Session::fresh(), line)
}

fn round(work: Work, bytes: &mut [u8], ops: &mut [u32]) -> u16
    ensures { length bytes.new ≡ length bytes.old }
{
    match work {
        Work::Words => words(bytes),
        Work::Members => members(bytes, ops),
        Work::Edits => edits(bytes),
        Work::Finds => finds(bytes),
        Work::Check => check(bytes),
        Work::Steps => steps(bytes, Session::fresh(), &[]),
        Work::Typed => typed(bytes, Session::fresh()),
        Work::TypedFull => typed(bytes, full()),
        Work::Alone => alone(bytes),
        Work::Spread => spread(bytes, &[]),
        Work::Numbers => numbers(bytes),
        Work::Runs => prints(bytes, b"RUN\r"),
        Work::Lists => prints(bytes, b"LIST\r"),
        Work::Saves => saves(bytes),
        Work::Loads => loads(bytes),
    }
}

// The first byte, which is no part of the work, changes from round to round: no round's answer can be that of another.
fn rounds(work: Work, n: u16, bytes: &mut [u8]) -> u16
    requires { 0 < length bytes.old }
{
    let mut ops = [0u32; nibl::ROOM];
    let mut sum: u16 = 0;
    for i in 0..n {
        bytes[0] = (i % 256) as u8;
        sum = sum.wrapping_add(round(work, &mut bytes[1..], &mut ops));
    }
    sum
}

fn round_by_table(work: TableWork, page: &[u8], table: &[u16]) -> u16
    requires { Indexed page.now table.now }
{
    match work {
        TableWork::Spread => spread(page, table),
        TableWork::Steps => steps(page, Session::fresh(), table),
    }
}

// The rounds by a table: it is made once, before the first.
fn rounds_by_table(work: TableWork, n: u16, bytes: &mut [u8]) -> u16
    requires { 0 < length bytes.old }
{
    if 4097 < bytes.len() || !places::is_good(&bytes[1..], nibl::LIMIT) {
        return 0;
    }
    let mut table = [0u16; nibl::range::TABLE_LEAST];
    table::refill(&bytes[1..], &mut table, 0, 0);
    let mut sum: u16 = 0;
    for i in 0..n {
        bytes[0] = (i % 256) as u8;
        sum = sum.wrapping_add(round_by_table(work, &bytes[1..], &table));
    }
    sum
}

// The sum of the rounds of a work, by its number.
fn sum_of(number: u16, n: u16, bytes: &mut [u8]) -> u16
    requires { 0 < length bytes.old }
{
    match number {
        16 => rounds_by_table(TableWork::Spread, n, bytes),
        17 => rounds_by_table(TableWork::Steps, n, bytes),
        _ => match Work::of(number) {
            Some(work) => rounds(work, n, bytes),
            None => 0,
        },
    }
}

fn run(rt: &impl Print, input: &mut [u8]) -> io::Result<()> {
    let Word::Decimal(work, past_work) = word::word_at(input, Cursor { at: 0 }) else {
        return Ok(());
    };
    let Word::Decimal(n, past_n) = word::word_at(input, past_work) else {
        return Ok(());
    };
    let from = past_n.at;
    if from < input.len() {
        println!(rt; "{}", sum_of(work, n, &mut input[from..]))?;
    }
    Ok(())
}

// Reads until buf is full, the input ends or a read fails, and returns how many bytes it put at the start of buf.
fn read_full(rt: &impl Input, buf: &mut [u8]) -> usize
    ensures { result ≤ length buf.new }
{
    let mut reader = rt.reader();
    let mut done = 0;
    while done < buf.len() {
        let Ok(n) = reader.read(&mut buf[done..]) else {
            break;
        };
        if n == 0 {
            break;
        }
        done += n;
    }
    done
}

fn main(rt: HostRuntime) -> io::Result<()> {
    let mut buffer = [0u8; INPUT];
    let n = read_full(&rt, &mut buffer);
    run(&rt, &mut buffer[..n])
}
