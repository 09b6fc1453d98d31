// INPUT asks: it writes "?" and gathers a line.
ghost use Rattle.std.specs.Prelude.{◌≤◌, ◌≡◌, length};
ghost use Rattle.world.specs.Hearing.{heard, hearing, slots_of, reply_count};

use letter::{Gathering, gather};
use nibl::stop::Stop;
use value::write_item;

// A reply of so many bytes, or how it is refused; and the positions then.
#[derive(Clone, Copy)]
pub struct Reply {
    pub said: Result<usize, Stop>,
    pub inpos: usize,
    pub outpos: usize,
}

// 17 comes before 7 and 6: without room for the "?" nothing is taken.
pub fn ask(input: &[u8], inpos: usize, output: &mut [u8], outpos: usize, reply: &mut [u8]) -> Reply
    ensures answer { heard result reply.new output.new ≡ hearing (length reply.old) input.now inpos output.old outpos }
    ensures slots { reply.new ≡ slots_of reply.old input.now inpos output.old outpos }
    ensures room { reply_count result ≤ length reply.new }
{
    let Some(next) = write_item(output, outpos, b"?") else {
        return Reply {
            said: Err(Stop::OUTPUT_FULL),
            inpos,
            outpos,
        };
    };
    let (said, at) = match gather(input, inpos, reply) {
        Gathering::NoCr => (Err(Stop::NO_CR), inpos),
        Gathering::TooLong(at) => (Err(Stop::BAD_REPLY), at),
        Gathering::Line(at, n) => (Ok(n), at),
    };
    Reply {
        said,
        inpos: at,
        outpos: next,
    }
}
