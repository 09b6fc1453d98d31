// The types that the promises name. A session's record is plain data, passed by value; each stack is a struct
// whose push and pop take it and hand it back with the answer.
#![tactic(auto)]

ghost use Rattle.std.specs.Prelude.{◌+◌, ◌-◌, ◌≤◌, ◌≡◌, eqb, ltb, set, if◌then◌else◌};
ghost use Rattle.nibl.specs.Stack.{on_top, top_in, pushed_of, push_of, top_of, pop_of, push_for, top_for, pop_for};
ghost use Rattle.nibl.specs.Record.{place, position, mark, position_of, nowhere, paused_at, pause_number, fresh_places, fresh_fors, fresh, unpaused, stackless, cleared, loaded_session, parts_of, session_of, with_flags};
ghost use Rattle.nibl.specs.Lent.{answer_of, with_positions, sight_of};

pub mod access;
pub mod range;
pub mod stop;

use access::{Access, Sight};
use stop::Stop;

// Bytes that the rules name: what ends a typed line, a record's text and a string; what follows it in the output; what stands
// between two statements; what a number is written with; what stands around a string; and the end mark, which is two of these.
pub const CR: u8 = 13;

pub const LF: u8 = 10;

pub const COLON: u8 = 58;

pub const ZERO: u8 = 48;

pub const MINUS: u8 = 45;

pub const SPACE: u8 = 32;

pub const QUOTE: u8 = 34;

pub const END_MARK: u8 = 255;

// The highest line number.
pub const LAST_LINE: u16 = 32767;

// How many bytes of a typed line, or of a reply, are kept.
pub const LIMIT: usize = 72;

// How many operations and values there is room for: a record's length is one byte, and no statement has more operations
// than bytes.
pub const ROOM: usize = 256;

// Variables, A to Z.
pub const VARIABLES: usize = 26;

// GOSUBs and DOs that are open at once, and FORs.
pub const GOSUBS: usize = 8;

pub const FORS: usize = 4;

// The flags use bits 0 to 2: so many patterns of them there are.
pub const FLAGS: u16 = 8;

const FLAG_PATTERNS: u8 = FLAGS as u8;

// The immediate mark: a GOSUB that was typed saves it for a place. No page is so long.
pub const MARK: u16 = 65535;

// The pause of a record that has none.
pub const NOWHERE: u16 = 0;

// The pause at the program's start.
const AT_START: u16 = 1;

// The line of an answer whose stop no program statement gave. No line has this number.
pub const NO_LINE: u16 = 65535;

// A position in the page: of the ":" that ends a statement, or of a record's CR; or the immediate mark.
#[repr(C)]
#[derive(Clone, Copy)]
pub struct Place(pub u16);

impl Place {
    // The one function that makes a place of a position.
    pub fn at(position: usize) -> Place
        requires { position ≤ 65535 }
        ensures { result ≡ place position }
    {
        Place(position as u16)
    }

    // And the one that opens it.
    pub fn position(self) -> usize
        ensures { result ≡ position self }
    {
        self.0 as usize
    }

    pub fn mark() -> Place
        ensures { result ≡ place mark }
    {
        Place(MARK)
    }

    pub fn is_mark(self) -> bool
        ensures { result ≡ eqb (position self) mark }
    {
        self.0 == MARK
    }
}

// What a program line is called. It is never a place: only the line finder turns one into the other.
#[derive(Clone, Copy)]
pub struct LineNumber(pub u16);

// Where a run goes on: at the program's start, or after a place. It is no Option of a place: it is itself answered where none is, and an
// Option in an Option would be no plainer.
#[derive(Clone, Copy)]
pub enum Onward {
    Start,
    After(Place),
}

impl Onward {
    // As a position of the page.
    pub fn position(self) -> usize
        ensures { (result ≡ position_of self) × (result ≤ 65536) }
    {
        match self {
            Onward::Start => 0,
            Onward::After(p) => p.position() + 1,
        }
    }
}

// A FOR under way: its variable (0 is A, 25 is Z), its limit and step, and the place that ends the FOR.
#[repr(C)]
#[derive(Clone, Copy)]
pub struct ForEntry {
    pub var: u8,
    pub limit: u16,
    pub step: u16,
    pub place: Place,
}

// The stack of GOSUB and that of DO: the slots below the depth are live, the oldest first. It and the stack of FOR are two structs, since no
// struct with a type for an argument may cross to C; what they do with their slots is one function for both.
#[repr(C)]
#[derive(Clone, Copy)]
pub struct PlaceStack {
    pub depth: usize,
    pub places: [Place; GOSUBS],
}

#[repr(C)]
#[derive(Clone, Copy)]
pub struct ForStack {
    pub depth: usize,
    pub entries: [ForEntry; FORS],
}

// A stack after a pop, and what was on top.
#[derive(Clone, Copy)]
pub struct Popped<S, T> {
    pub stack: S,
    pub top: Option<T>,
}

// An item goes on top of so many live slots: one slot is written. A depth of as many as there is room for, or one that no stack has, is full.
fn push_slot<T: Copy, const N: usize>(depth: &mut usize, slots: &mut [T; N], x: T) -> bool
    ensures fits { result ≡ ltb depth.old N }
    ensures depth_after { depth.new ≡ (if ltb depth.old N then depth.old + 1 else depth.old) }
    ensures slots_after { slots.new ≡ (if ltb depth.old N then set slots.old depth.old x else slots.old) }
{
    let d = *depth;
    if N <= d {
        return false;
    }
    slots[d] = x;
    *depth = d + 1;
    true
}

// The item on top. A depth that no stack has counts as empty.
fn top_slot<T: Copy, const N: usize>(depth: usize, slots: &[T; N]) -> Option<T>
    ensures { (x : T) → result ≡ top_in N x depth slots.now }
{
    if depth < 1 || N < depth {
        return None;
    }
    Some(slots[depth - 1])
}

// The depth after a pop: the slot keeps what it held.
fn lowered<const N: usize>(depth: usize) -> usize
    ensures { result ≡ on_top N depth depth (depth - 1) }
{
    if depth < 1 || N < depth {
        return depth;
    }
    depth - 1
}

impl PlaceStack {
    // A full stack is handed back as it was.
    pub fn push(self, p: Place) -> Result<PlaceStack, PlaceStack>
        ensures { pushed_of result ≡ push_of self p }
    {
        let mut next = self;
        if push_slot(&mut next.depth, &mut next.places, p) {
            return Ok(next);
        }
        Err(self)
    }

    pub fn top(self) -> Option<Place>
        ensures { result ≡ top_of self }
    {
        top_slot(self.depth, &self.places)
    }

    pub fn pop(self) -> Popped<PlaceStack, Place>
        ensures { result ≡ pop_of self }
    {
        Popped {
            stack: PlaceStack {
                depth: lowered::<GOSUBS>(self.depth),
                ..self
            },
            top: self.top(),
        }
    }
}

impl ForStack {
    // A full stack is handed back as it was.
    pub fn push(self, e: ForEntry) -> Result<ForStack, ForStack>
        ensures { pushed_of result ≡ push_for self e }
    {
        let mut next = self;
        if push_slot(&mut next.depth, &mut next.entries, e) {
            return Ok(next);
        }
        Err(self)
    }

    pub fn top(self) -> Option<ForEntry>
        ensures { result ≡ top_for self }
    {
        top_slot(self.depth, &self.entries)
    }

    pub fn pop(self) -> Popped<ForStack, ForEntry>
        ensures { result ≡ pop_for self }
    {
        Popped {
            stack: ForStack {
                depth: lowered::<FORS>(self.depth),
                ..self
            },
            top: self.top(),
        }
    }
}

impl Onward {
    // Where a run goes on that is paused, by the number that a record has for it, if one is: every number is one.
    pub fn paused(number: u16) -> Option<Onward>
        ensures { pause_number result ≡ number }
    {
        match number {
            NOWHERE => None,
            AT_START => Some(Onward::Start),
            _ => Some(Onward::After(Place::at(number as usize - 2))),
        }
    }
}

// The number that a record holds for a pause at a position.
pub fn paused_at(position: usize) -> u16
    requires { position ≤ 65534 }
    ensures { result ≡ paused_at position }
{
    (position + 1) as u16
}

impl Onward {
    // The number that a record holds for a pause there.
    pub fn pause(self) -> u16
        requires { position_of self ≤ 65534 }
        ensures { result ≡ paused_at (position_of self) }
    {
        paused_at(self.position())
    }
}

// What the controller keeps between calls: numbers alone, so that any bits that a host lends are a record.
// The flags are bits 0 to 2; the pause is read by `Onward::paused`.
#[repr(C)]
#[derive(Clone, Copy)]
pub struct Session {
    pub vars: [u16; VARIABLES],
    pub flags: u8,
    pub gosubs: PlaceStack,
    pub dos: PlaceStack,
    pub fors: ForStack,
    pub paused: u16,
}

// What a statement changes besides the variables, the memory and the output's bytes: the rest of the record but its pause,
// and a call's two positions.
#[derive(Clone, Copy)]
pub struct Parts {
    pub flags: u8,
    pub gosubs: PlaceStack,
    pub dos: PlaceStack,
    pub fors: ForStack,
    pub inpos: usize,
    pub outpos: usize,
}

impl PlaceStack {
    pub fn fresh() -> PlaceStack
        ensures { result ≡ fresh_places }
    {
        PlaceStack {
            depth: 0,
            places: [Place::at(0); GOSUBS],
        }
    }
}

impl ForStack {
    pub fn fresh() -> ForStack
        ensures { result ≡ fresh_fors }
    {
        let none = ForEntry {
            var: 0,
            limit: 0,
            step: 0,
            place: Place::at(0),
        };
        ForStack {
            depth: 0,
            entries: [none; FORS],
        }
    }
}

impl Session {
    // The record before the first line: all zeros, and nothing paused.
    pub fn fresh() -> Session
        ensures { result ≡ fresh }
    {
        Session {
            vars: [0u16; VARIABLES],
            flags: 0,
            gosubs: PlaceStack::fresh(),
            dos: PlaceStack::fresh(),
            fors: ForStack::fresh(),
            paused: NOWHERE,
        }
    }

    // A call past its first refusals ends any pause.
    pub fn unpaused(self) -> Session
        ensures { result ≡ unpaused self }
    {
        Session {
            paused: NOWHERE,
            ..self
        }
    }

    // An edit clears the stacks: the slots keep what they held.
    pub fn stackless(self) -> Session
        ensures { result ≡ stackless self }
    {
        let mut next = self;
        next.gosubs.depth = 0;
        next.dos.depth = 0;
        next.fors.depth = 0;
        next
    }

    // CLEAR zeroes the variables and clears the stacks.
    pub fn cleared(self) -> Session
        ensures { result ≡ cleared self }
    {
        Session {
            vars: [0u16; VARIABLES],
            ..self.stackless()
        }
    }

    // A load brings its own variables. The stacks are emptied, a pause is ended, and of the flags bits 0 to 2 are kept.
    pub fn loaded(self, vars: [u16; VARIABLES]) -> Session
        ensures { result ≡ loaded_session self vars }
    {
        Session {
            vars,
            flags: self.flags % FLAG_PATTERNS,
            paused: NOWHERE,
            ..self.stackless()
        }
    }

    // All but the variables and the pause, for a run.
    pub fn parts(self, inpos: usize, outpos: usize) -> Parts
        ensures { result ≡ parts_of self inpos outpos }
    {
        Parts {
            flags: self.flags,
            gosubs: self.gosubs,
            dos: self.dos,
            fors: self.fors,
            inpos,
            outpos,
        }
    }
}

impl Parts {
    // The record again, with the variables that the run left.
    pub fn session(self, vars: [u16; VARIABLES], paused: u16) -> Session
        ensures { result ≡ session_of self vars paused }
    {
        Session {
            vars,
            flags: self.flags,
            gosubs: self.gosubs,
            dos: self.dos,
            fors: self.fors,
            paused,
        }
    }
}

// The numbers that a call is given: where to read, where to write, the sense byte, the step budget, and whether a table of line
// places is lent: 0 where none is, and any other number where one is.
#[repr(C)]
#[derive(Clone, Copy)]
pub struct Call {
    pub inpos: usize,
    pub outpos: usize,
    pub sense: u8,
    pub budget: usize,
    pub tabled: u8,
}

impl Call {
    // The same call at other positions: past what was read and written.
    pub fn at(self, inpos: usize, outpos: usize) -> Call
        ensures { result ≡ with_positions inpos outpos self }
    {
        Call {
            inpos,
            outpos,
            ..self
        }
    }

    // What its statements see.
    pub fn sight(self) -> Sight
        ensures { result ≡ sight_of self }
    {
        Sight {
            sense: self.sense,
            access: Access::whole(),
        }
    }
}

// What a call answers. The line is that of the program statement that gave the stop, or NO_LINE. The column is that of a refused
// line: of its bytes so many could still be the front of a line with a reading.
#[repr(C)]
#[derive(Clone, Copy)]
pub struct Answer {
    pub stop: u8,
    pub line: u16,
    pub steps: u16,
    pub inpos: usize,
    pub outpos: usize,
    pub column: u16,
}

impl Answer {
    // The one function that makes an answer.
    pub fn of(stop: Stop, line: u16, steps: u16, inpos: usize, outpos: usize, column: u16) -> Answer
        ensures { result ≡ answer_of stop.0 line steps inpos outpos column }
    {
        Answer {
            stop: stop.0,
            line,
            steps,
            inpos,
            outpos,
            column,
        }
    }
}
