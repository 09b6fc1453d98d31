// Makes the calls of the cases of standard input by the proved `calls` and `carry`, and writes what each left, to be held against what the
// model's calls leave of the same bytes. The input has the number of cases, and then of each its name, after one byte for its
// length; the page, the memory, the input and the output; the table of line places; where the first call reads and writes; the
// session record; and the calls, after one byte for their number, each of which says whether it is lent the table. The calls of a
// case are made one after the other, each on what the one before left, from the positions that it answered.
//
// Below a case's name each call has a row: the stop with its line, the steps, the column, both positions, the flags, the pause,
// the stacks, the variables, the sums of page, memory and output, the bytes that were written, at most the first 40, and the
// table's sum with its first 12 numbers.
#![tactic(auto)]

ghost use Rattle.std.specs.Prelude.{◌≤◌, ◌<◌, length, ◌≡◌};

use nibl::{Answer, Call, ForEntry, ForStack, Place, PlaceStack, Session};
use outcome::Ended;
use std::array;
use std::io::{self, Read};

// The most numbers that a table of these cases has.
const ENTRIES: usize = 1100;

// The room for a case's name, and that for each of a call's lent bytes.
const NAME: usize = 4096;

const LENT: usize = 65536;

// Reads until buf is full, the input ends or a read fails, and returns how many bytes it put at the start of buf.
fn read_full(rt: &impl Input, buf: &mut [u8]) -> usize
    ensures { result ≤ length buf.new }
{
    let mut reader = rt.reader();
    let mut done = 0;
    while done < buf.len() {
        let Ok(n) = reader.read(&mut buf[done..]) else {
            break;
        };
        if n == 0 {
            break;
        }
        done += n;
    }
    done
}

// The next byte of standard input, and 0 past its end.
fn byte(rt: &impl Input) -> u8 {
    let mut b = [0u8; 1];
    read_full(rt, &mut b);
    b[0]
}

// A number of two bytes, high first.
fn number(rt: &impl Input) -> u16 {
    u16::from_be_bytes([byte(rt), byte(rt)])
}

// A number of four bytes: a length of lent bytes, a position or a budget.
fn long(rt: &impl Input) -> usize {
    let high = usize::from(number(rt));
    let low = usize::from(number(rt));
    high * 65536 + low
}

fn place(rt: &impl Input) -> Place {
    Place::at(usize::from(number(rt)))
}

// A stack: its depth, and its eight places.
fn place_stack(rt: &impl Input) -> PlaceStack {
    let depth = usize::from(number(rt));
    let places = array::from_fn(|_| place(rt));
    PlaceStack { depth, places }
}

fn for_entry(rt: &impl Input) -> ForEntry {
    let var = byte(rt);
    let limit = number(rt);
    let step = number(rt);
    let place = place(rt);
    ForEntry {
        var,
        limit,
        step,
        place,
    }
}

// The same of FORs: four entries.
fn for_stack(rt: &impl Input) -> ForStack {
    let depth = usize::from(number(rt));
    let entries = array::from_fn(|_| for_entry(rt));
    ForStack { depth, entries }
}

fn session(rt: &impl Input) -> Session {
    let vars = array::from_fn(|_| number(rt));
    let flags = byte(rt);
    let paused = number(rt);
    let gosubs = place_stack(rt);
    let dos = place_stack(rt);
    let fors = for_stack(rt);
    Session {
        vars,
        flags,
        gosubs,
        dos,
        fors,
        paused,
    }
}

fn show_line(rt: &impl Print, line: u16) -> io::Result<()> {
    if line == nibl::NO_LINE {
        print!(rt; " -")
    } else {
        print!(rt; " {line}")
    }
}

fn show_numbers(rt: &impl Print, numbers: &[u16]) -> io::Result<()> {
    for n in numbers {
        print!(rt; " {n}")?;
    }
    Ok(())
}

fn show_places(rt: &impl Print, stack: PlaceStack) -> io::Result<()> {
    print!(rt; " / {}", stack.depth)?;
    for place in stack.places {
        print!(rt; " {}", place.position())?;
    }
    Ok(())
}

fn show_fors(rt: &impl Print, stack: ForStack) -> io::Result<()> {
    print!(rt; " / {}", stack.depth)?;
    for e in stack.entries {
        print!(rt; " {} {} {} {}", e.var, e.limit, e.step, e.place.position())?;
    }
    Ok(())
}

fn show_answer(rt: &impl Print, answer: Answer) -> io::Result<()> {
    print!(rt; "{}", answer.stop)?;
    show_line(rt, answer.line)?;
    print!(rt;
        " {} {} {} {}",
        answer.steps, answer.column, answer.inpos, answer.outpos
    )
}

fn show_session(rt: &impl Print, rec: Session) -> io::Result<()> {
    print!(rt; " {} {}", rec.flags, rec.paused)?;
    show_places(rt, rec.gosubs)?;
    show_places(rt, rec.dos)?;
    show_fors(rt, rec.fors)?;
    print!(rt; " /")?;
    show_numbers(rt, &rec.vars)
}

// Bytes as one number, the first byte highest: what is left of it by 16,777,213, a prime, with one byte more.
fn with_byte(sum: u32, b: u8) -> u32
    requires { sum < 16777213 }
    ensures { result < 16777213 }
{
    (sum * 256 + u32::from(b)) % 16777213
}

fn sum(bytes: &[u8]) -> u32 {
    let mut sum = 0;
    for b in bytes {
        sum = with_byte(sum, *b);
    }
    sum
}

// A number is two bytes, the high one first.
fn with_number(sum: u32, n: u16) -> u32
    requires { sum < 16777213 }
    ensures { result < 16777213 }
{
    let [high, low] = n.to_be_bytes();
    with_byte(with_byte(sum, high), low)
}

fn sum_numbers(numbers: &[u16]) -> u32 {
    let mut sum = 0;
    for n in numbers {
        sum = with_number(sum, *n);
    }
    sum
}

// The bytes of the output from a position to another, at most the first 40.
fn show_written(rt: &impl Print, output: &[u8], from: usize, to: usize) -> io::Result<()> {
    print!(rt; " /")?;
    let written = output.get(from..to.min(output.len())).unwrap_or(&[]);
    for b in written.iter().take(40) {
        print!(rt; " {b}")?;
    }
    Ok(())
}

// The table's sum and its first numbers, at most 12.
fn show_table(rt: &impl Print, table: &[u16]) -> io::Result<()> {
    print!(rt; " / {}", sum_numbers(table))?;
    show_numbers(rt, &table[..table.len().min(12)])
}

// The row of a call that wrote from this position on.
fn row(
    rt: &impl Print,
    ended: Ended,
    from: usize,
    page: &[u8],
    memory: &[u8],
    output: &[u8],
    table: &[u16],
) -> io::Result<()> {
    show_answer(rt, ended.answer)?;
    show_session(rt, ended.session)?;
    print!(rt; " / {} {} {}", sum(page), sum(memory), sum(output))?;
    show_written(rt, output, from, ended.answer.outpos)?;
    show_table(rt, table)?;
    println!(rt)
}

// What is called.
#[derive(Clone, Copy)]
enum Kind {
    TakeLine,
    ContinueRun,
    Save,
    Load,
}

impl Kind {
    fn of(code: u8) -> Kind {
        match code {
            0 => Kind::TakeLine,
            1 => Kind::ContinueRun,
            2 => Kind::Save,
            _ => Kind::Load,
        }
    }
}

// A load's form is the input.
fn make_call(
    kind: Kind,
    rec: Session,
    page: &mut [u8],
    memory: &mut [u8],
    input: &[u8],
    output: &mut [u8],
    given: Call,
    table: &mut [u16],
) -> Ended {
    match kind {
        Kind::TakeLine => calls::take_line(rec, page, memory, input, output, given, table),
        Kind::ContinueRun => calls::continue_run(rec, page, memory, input, output, given, table),
        Kind::Save => carry::save(rec, page, memory, input, output, given, table),
        Kind::Load => carry::load(rec, page, memory, input, output, given, table),
    }
}

// The next call, with its row.
fn next_call(
    rt: &(impl Input + Print),
    rec: Session,
    page: &mut [u8],
    memory: &mut [u8],
    input: &[u8],
    output: &mut [u8],
    inpos: usize,
    outpos: usize,
    table: &mut [u16],
) -> io::Result<Ended> {
    let kind = Kind::of(byte(rt));
    let sense = byte(rt);
    let budget = long(rt);
    let tabled = byte(rt);
    let given = Call {
        inpos,
        outpos,
        sense,
        budget,
        tabled,
    };
    let ended = make_call(kind, rec, page, memory, input, output, given, table);
    row(rt, ended, outpos, page, memory, output, table)?;
    Ok(ended)
}

// A case's calls, each on what the one before left.
fn calls(
    rt: &(impl Input + Print),
    page: &mut [u8],
    memory: &mut [u8],
    input: &[u8],
    output: &mut [u8],
    table: &mut [u16],
) -> io::Result<()> {
    let mut inpos = long(rt);
    let mut outpos = long(rt);
    let mut rec = session(rt);
    for _ in 0..byte(rt) {
        let ended = next_call(rt, rec, page, memory, input, output, inpos, outpos, table)?;
        rec = ended.session;
        inpos = ended.answer.inpos;
        outpos = ended.answer.outpos;
    }
    Ok(())
}

// The next lent bytes: their length, a byte that fills them, and those that stand before it, after their number. A length that
// the room does not have counts as none.
fn take(rt: &impl Input, room: &mut [u8]) -> usize
    ensures upper_bound { result ≤ length room.new }
    ensures room_len_unchanged { length room.new ≡ length room.old }
{
    let n = long(rt);
    let filler = byte(rt);
    let given = usize::from(number(rt));
    if room.len() < n || n < given {
        return 0;
    }
    room[..n].fill(filler);
    read_full(rt, &mut room[..given]);
    n
}

// The table, in the same way: its length, a number that fills it, and those that stand before it, after how many they are. Beside
// `take` it has a body of its own: bytes that the input lacks are left as filled, and such numbers are 0.
fn take_table(rt: &impl Input, room: &mut [u16]) -> usize
    ensures upper_bound { result ≤ length room.new }
    ensures room_len_unchanged { length room.new ≡ length room.old }
{
    let n = long(rt);
    let filler = number(rt);
    let given = usize::from(number(rt));
    if room.len() < n || n < given {
        return 0;
    }
    room[..n].fill(filler);
    for entry in &mut room[..given] {
        *entry = number(rt);
    }
    n
}

// A case's name, on a line of its own.
fn show_name(rt: &(impl Input + Print)) -> io::Result<()> {
    let mut room = [0u8; NAME];
    let n = usize::from(byte(rt));
    let name = &mut room[..n];
    read_full(rt, name);
    rt.write_all(name)?;
    println!(rt)
}

fn next_case(rt: &(impl Input + Print)) -> io::Result<()> {
    let mut page = [0u8; LENT];
    let mut memory = [0u8; LENT];
    let mut input = [0u8; LENT];
    let mut output = [0u8; LENT];
    let mut table = [0u16; ENTRIES];
    show_name(rt)?;
    let p = take(rt, &mut page);
    let m = take(rt, &mut memory);
    let n = take(rt, &mut input);
    let o = take(rt, &mut output);
    let t = take_table(rt, &mut table);
    calls(
        rt,
        &mut page[..p],
        &mut memory[..m],
        &input[..n],
        &mut output[..o],
        &mut table[..t],
    )
}

fn main(rt: HostRuntime) -> io::Result<()> {
    for _ in 0..number(&rt) {
        next_case(&rt)?;
    }
    Ok(())
}
