// Whose the memory's bytes are, as a statement sees it.
ghost use Rattle.std.specs.Prelude.{◌≡◌};
ghost use Rattle.nibl.specs.Access.{every_address};

// Bytes of the memory, from one on up to another that is not among them.
#[repr(C)]
#[derive(Clone, Copy)]
pub struct Range {
    pub from: u16,
    pub to: u16,
}

// What a box may use of the memory: its own bytes, to read and to write, and the shared ones, to read.
#[derive(Clone, Copy)]
pub struct Access {
    pub own: Range,
    pub shared: Range,
}

// What a statement sees besides the page and the input: the sense byte, and what it may use of the memory.
#[derive(Clone, Copy)]
pub struct Sight {
    pub sense: u8,
    pub access: Access,
}

impl Access {
    // A single box's: the whole memory is its own.
    pub fn whole() -> Access
        ensures { result ≡ every_address }
    {
        Access {
            own: Range { from: 0, to: 65535 },
            shared: Range { from: 0, to: 0 },
        }
    }
}
