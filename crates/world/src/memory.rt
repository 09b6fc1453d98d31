// Memory: a byte, how far a string runs, and stores. Each answers a value or a stop number; a refused store changes nothing.
// Here alone it is decided who may read and write a byte.
ghost use Rattle.std.specs.Prelude.{◌+◌, ◌%◌, [], ◌∷◌, ◌++◌, ◌≡◌, length};
ghost use Rattle.nibl.specs.Bytes.{byte_cr};
ghost use Rattle.nibl.specs.Values.{is};
ghost use Rattle.nibl.specs.Access.{inside, may_read, may_write};
ghost use Rattle.nibl.specs.Meaning.{bind, byte_of, string_at, store_at};
ghost use Rattle.value.specs.Operators.{value_of};
ghost use Rattle.world.specs.Stores.{extent_of, store_ends, store_gave, store_leaves, args_of};

use nibl::access::{Access, Range};
use nibl::stop::Stop;
use page::move_bytes;
use value::{has_room, put_bytes};

// Whether an address lies in a range. The highest address lies in none.
fn lies_in(range: Range, a: usize) -> bool
    ensures { result ≡ inside range a }
{
    usize::from(range.from) <= a && a < usize::from(range.to)
}

// Whether the byte at an address may be read.
fn may_read(access: Access, a: usize) -> bool
    ensures { result ≡ may_read access a }
{
    lies_in(access.own, a) || lies_in(access.shared, a)
}

// Whether n bytes from a position on may be written.
fn may_write(access: Access, at: usize, n: usize) -> bool
    ensures { result ≡ may_write access at n }
{
    let own = access.own;
    usize::from(own.from) <= at && has_room(usize::from(own.to), at, n)
}

// Whether a store of n bytes from a position on may be done in a memory of so many, or how it is refused: the outlying byte comes first.
fn may_store(access: Access, memory: usize, at: usize, n: usize) -> Result<(), Stop>
    ensures { result ≡ store_ends access memory at n }
{
    if !has_room(memory, at, n) {
        return Err(Stop::NO_MEMORY);
    }
    if !may_write(access, at, n) {
        return Err(Stop::NOT_ITS_OWN);
    }
    Ok(())
}

// "@" reads one byte.
pub fn byte_of(access: Access, memory: &[u8], a: u16) -> Result<u16, Stop>
    ensures { value_of result ≡ byte_of access memory.now a }
{
    let at = usize::from(a);
    let byte = memory.get(at).ok_or(Stop::NO_MEMORY)?;
    if !may_read(access, at) {
        return Err(Stop::NOT_ITS_OWN);
    }
    Ok(u16::from(*byte))
}

// A string in memory runs to its first CR. The first byte that may not be read ends the look for it.
pub fn string_end(access: Access, memory: &[u8], a: u16) -> Result<usize, Stop>
    ensures { extent_of result ≡ bind (string_at access memory.now a) (λ bs. is (a + length bs)) }
{
    for at in usize::from(a)..memory.len() {
        if !may_read(access, at) {
            return Err(Stop::NOT_ITS_OWN);
        }
        if memory[at] == nibl::CR {
            return Ok(at);
        }
    }
    Err(Stop::NO_MEMORY)
}

// One byte is stored: the low eight bits of a value.
pub fn store_byte(access: Access, memory: &mut [u8], a: u16, x: u16) -> Result<(), Stop>
    ensures { store_gave result memory.new ≡ store_leaves memory.old (store_at access memory.old a (x % 256 ∷ [])) }
{
    let at = usize::from(a);
    may_store(access, memory.len(), at, 1)?;
    memory[at] = (x % 256) as u8;
    Ok(())
}

// The bytes that operations have as their arguments are stored, all or none.
pub fn store_args(access: Access, memory: &mut [u8], a: u16, ops: &[u32]) -> Result<(), Stop>
    ensures { store_gave result memory.new ≡ store_leaves memory.old (store_at access memory.old a (args_of ops.now)) }
{
    let at = usize::from(a);
    may_store(access, memory.len(), at, ops.len())?;
    for (i, op) in ops.iter().enumerate() {
        memory[at + i] = (op / codes::CODES % 256) as u8;
    }
    Ok(())
}

// A text and its CR are stored, all or nothing.
pub fn store_text(access: Access, memory: &mut [u8], a: u16, text: &[u8]) -> Result<(), Stop>
    ensures { store_gave result memory.new ≡ store_leaves memory.old (store_at access memory.old a (text.now ++ (byte_cr ∷ []))) }
{
    let at = usize::from(a);
    let n = text.len();
    may_store(access, memory.len(), at, n + 1)?;
    put_bytes(&mut memory[at..at + n], text);
    memory[at + n] = nibl::CR;
    Ok(())
}

// A string is copied with its CR, as if it were taken whole first.
pub fn copy_string(access: Access, memory: &mut [u8], to: u16, from: u16) -> Result<(), Stop>
    ensures { store_gave result memory.new ≡ store_leaves memory.old (bind (string_at access memory.old from) (λ bs. store_at access memory.old to (bs ++ (byte_cr ∷ [])))) }
{
    let first = usize::from(from);
    let at = usize::from(to);
    let end = string_end(access, memory, from)?;
    let n = end + 1 - first;
    may_store(access, memory.len(), at, n)?;
    move_bytes(memory, first, at, n);
    Ok(())
}
