// The session program: typed lines on standard input, each ended by CR; what the controller writes and answers, on standard
// output. Every line goes through the proved call `calls::take_line`, and what is proved of a line is what that call promises.
// Of the program itself it is proved that it is safe and ends: no promise can say which bytes the system reads and writes.
#![tactic(auto)]

ghost use Rattle.std.specs.Prelude.{◌≤◌, length};

use nibl::stop::Stop;
use nibl::{Answer, Call, END_MARK, NO_LINE, Session};
use outcome::Ended;
use std::io::{self, Read};

// What the session lends: standard input's first bytes, a page, a memory, and for each typed line an output and a budget. It lends
// no table of line places.
const INPUT: usize = 65535;

const PAGE: usize = 4096;

const MEMORY: usize = 1024;

const OUTPUT: usize = 8192;

const BUDGET: usize = 10000;

// The first bytes of the output: those that a call wrote. No call answers a position past the output.
fn show_written(rt: &impl Print, output: &[u8], outpos: usize) -> io::Result<()> {
    rt.write_all(output.get(..outpos).unwrap_or(&[]))
}

// Stop number, line number or "-", and steps.
fn show_answer(rt: &impl Print, answer: Answer) -> io::Result<()> {
    print!(rt; "{} ", answer.stop)?;
    if answer.line == NO_LINE {
        print!(rt; "-")?;
    } else {
        print!(rt; "{}", answer.line)?;
    }
    println!(rt; " {}", answer.steps)
}

// Whether no CR was left for a typed line. INPUT's 7 has a line, is shown, and the session goes on after it.
fn is_over(answer: Answer) -> bool {
    Stop(answer.stop) == Stop::NO_CR && answer.line == NO_LINE
}

// One typed line, with what it wrote and answered; nothing is shown where there was none.
fn next_line(
    rt: &impl Print,
    rec: Session,
    page: &mut [u8],
    memory: &mut [u8],
    input: &[u8],
    inpos: usize,
) -> io::Result<Ended> {
    let mut output = [0u8; OUTPUT];
    let mut unlent = [0u16; 1];
    let given = Call {
        inpos,
        outpos: 0,
        sense: 0,
        budget: BUDGET,
        tabled: 0,
    };
    let ended = calls::take_line(rec, page, memory, input, &mut output, given, &mut unlent);
    if !is_over(ended.answer) {
        show_written(rt, &output, ended.answer.outpos)?;
        show_answer(rt, ended.answer)?;
    }
    Ok(ended)
}

// Line after line, until no CR is left. A typed line takes its CR at least, so there are no more lines than bytes.
fn lines(rt: &impl Print, page: &mut [u8], memory: &mut [u8], input: &[u8]) -> io::Result<()> {
    let mut rec = Session::fresh();
    let mut inpos = 0;
    for _ in 0..input.len() {
        let ended = next_line(rt, rec, page, memory, input, inpos)?;
        if is_over(ended.answer) {
            break;
        }
        rec = ended.session;
        inpos = ended.answer.inpos;
    }
    Ok(())
}

// Reads until buf is full, the input ends or a read fails, and returns how many bytes it put at the start of buf.
fn read_full(rt: &impl Input, buf: &mut [u8]) -> usize
    ensures { result ≤ length buf.new }
{
    let mut reader = rt.reader();
    let mut done = 0;
    while done < buf.len() {
        let Ok(n) = reader.read(&mut buf[done..]) else {
            break;
        };
        if n == 0 {
            break;
        }
        done += n;
    }
    done
}

// What follows the first 65,535 bytes is not read.
fn main(rt: HostRuntime) -> io::Result<()> {
    let mut input = [0u8; INPUT];
    let n = read_full(&rt, &mut input);
    let mut page = [0u8; PAGE];
    page[0] = END_MARK;
    page[1] = END_MARK;
    let mut memory = [0u8; MEMORY];
    lines(&rt, &mut page, &mut memory, &input[..n])
}
