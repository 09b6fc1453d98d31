// The statements that change where a run goes on: GOTO, the three stacks, and the variables that FOR and NEXT count with.
// A stack is taken and handed back by value; one that refuses is as before.
ghost use Rattle.std.specs.Prelude.{suc, ◌≡◌, get_or, set};
ghost use Rattle.nibl.specs.Page.{find};
ghost use Rattle.nibl.specs.Meaning.{go, goes_on};
ghost use Rattle.nibl.specs.Record.{position};
ghost use Rattle.page.specs.Walk.{reached};
ghost use Rattle.table.specs.Index.{Indexed};
ghost use Rattle.world.specs.Turns.{way_of, turned, turned_for, step_taken, way_to, keep_turn, gosub_turn, return_turn, do_turn, until_turn, for_turn, adds_step, found_for, for_of, next_turn, back_of, backed, next_back, until_back};

use nibl::stop::Stop;
use nibl::{ForEntry, ForStack, LineNumber, Onward, Place, PlaceStack};

// How a statement ends: on to the next one, to the next record, to where a line or a place says, or with a stop.
#[derive(Clone, Copy)]
pub enum Way {
    On,
    Skip,
    Go(Onward),
    Stop(Stop),
}

// A stack after a statement, and how that ended.
#[derive(Clone, Copy)]
pub struct Turn<S> {
    pub way: Way,
    pub stack: S,
}

// A variable's value, and 0 where there is none of that number, as its clause has it.
pub fn var_of(vars: &[u16], v: u32) -> u16
    ensures { result ≡ get_or vars.now v 0 }
{
    vars.get(v as usize).copied().unwrap_or(0)
}

// A variable gets a value.
pub fn set_var(vars: &mut [u16], v: u32, x: u16)
    ensures { vars.new ≡ set vars.old v x }
{
    // by an index: the library says nothing of a slice that `get_mut` gives no element of
    let i = v as usize;
    if i < vars.len() {
        vars[i] = x;
    }
}

// To what stands behind a place.
fn go_past(p: Place) -> Way
    ensures { way_of result ≡ go (suc (position p)) }
{
    Way::Go(Onward::After(p))
}

// The way on after a place, which the immediate mark ends with 0.
fn after(p: Place) -> Way
    ensures { way_of result ≡ Rattle.nibl.specs.Meaning.after p }
{
    if p.is_mark() {
        Way::Stop(Stop::DONE)
    } else {
        go_past(p)
    }
}

// GOTO: to the line of a number, or 8.
pub fn go_to(page: &[u8], n: u16, table: &[u16]) -> Way
    requires { Indexed page.now table.now }
    ensures { way_of result ≡ way_to (reached (find page.now n)) }
{
    match table::find_line(page, LineNumber(n), table) {
        None => Way::Stop(Stop::NO_SUCH_LINE),
        Some(o) => Way::Go(o),
    }
}

// A place goes onto a stack, and the run its way; 10 if the stack is full.
fn keep(stack: PlaceStack, here: Place, way: Way) -> Turn<PlaceStack>
    ensures { turned result ≡ keep_turn here stack (way_of way) }
{
    match stack.push(here) {
        Ok(stack) => Turn { way, stack },
        Err(stack) => Turn {
            way: Way::Stop(Stop::TOO_DEEP),
            stack,
        },
    }
}

// GOSUB: 8 comes before 10.
pub fn go_sub(
    page: &[u8],
    n: u16,
    here: Place,
    stack: PlaceStack,
    table: &[u16],
) -> Turn<PlaceStack>
    requires { Indexed page.now table.now }
    ensures { turned result ≡ gosub_turn here stack (reached (find page.now n)) }
{
    match table::find_line(page, LineNumber(n), table) {
        None => Turn {
            way: Way::Stop(Stop::NO_SUCH_LINE),
            stack,
        },
        Some(o) => keep(stack, here, Way::Go(o)),
    }
}

// RETURN to the place on top.
pub fn return_from(stack: PlaceStack) -> Turn<PlaceStack>
    ensures { turned result ≡ return_turn stack }
{
    let popped = stack.pop();
    match popped.top {
        None => Turn {
            way: Way::Stop(Stop::NO_GOSUB),
            stack,
        },
        Some(p) => Turn {
            way: after(p),
            stack: popped.stack,
        },
    }
}

// DO keeps its place.
pub fn do_here(stack: PlaceStack, here: Place) -> Turn<PlaceStack>
    ensures { turned result ≡ do_turn here stack }
{
    keep(stack, here, Way::On)
}

// UNTIL returns to its DO's place on 0, and pops otherwise.
pub fn until(stack: PlaceStack, x: u16) -> Turn<PlaceStack>
    ensures { turned result ≡ until_turn x stack }
{
    let popped = stack.pop();
    match popped.top {
        None => Turn {
            way: Way::Stop(Stop::NO_DO),
            stack,
        },
        Some(p) if x == 0 => Turn {
            way: go_past(p),
            stack,
        },
        Some(_) => Turn {
            way: Way::On,
            stack: popped.stack,
        },
    }
}

// FOR keeps its variable, limit, step and place; the variable gets the first value. Not by `keep`, which would be no plainer: the stack is
// another struct, and the variable is set only where there was room.
pub fn for_here(
    stack: ForStack,
    here: Place,
    vars: &mut [u16],
    v: u8,
    first: u16,
    limit: u16,
    step: u16,
) -> Turn<ForStack>
    ensures { turned_for result vars.new ≡ for_turn here stack vars.old v first limit step }
{
    let entry = ForEntry {
        var: v,
        limit,
        step,
        place: here,
    };
    match stack.push(entry) {
        Ok(stack) => {
            set_var(vars, u32::from(v), first);
            Turn {
                way: Way::On,
                stack,
            }
        }
        Err(stack) => Turn {
            way: Way::Stop(Stop::TOO_DEEP),
            stack,
        },
    }
}

// Whether a FOR goes on: its variable is at most the limit, or at least that where the step is negative.
fn goes_on(step: u16, x: u16, limit: u16) -> bool
    ensures { result ≡ goes_on step x limit }
{
    if value::is_negative(step) {
        !value::less(x, limit)
    } else {
        !value::less(limit, x)
    }
}

// The variable gets the step added; whether its FOR then goes on.
fn add_step(vars: &mut [u16], v: u8, entry: ForEntry) -> bool
    ensures { step_taken result vars.new ≡ adds_step vars.old v entry }
{
    let var = u32::from(v);
    let old = var_of(vars, var);
    let x = value::add(old, entry.step);
    set_var(vars, var, x);
    goes_on(entry.step, x, entry.limit)
}

// The FOR on top, which a NEXT of its variable belongs to, or how that is refused.
fn for_of(stack: ForStack, v: u8) -> Result<ForEntry, Stop>
    ensures { found_for result ≡ for_of stack v }
{
    let entry = stack.top().ok_or(Stop::NO_FOR)?;
    if entry.var != v {
        return Err(Stop::OTHER_VARIABLE);
    }
    Ok(entry)
}

// NEXT adds the step, then returns to the FOR's place, or pops.
pub fn next_of(stack: ForStack, vars: &mut [u16], v: u8) -> Turn<ForStack>
    ensures { turned_for result vars.new ≡ next_turn stack vars.old v }
{
    let entry = match for_of(stack, v) {
        Ok(entry) => entry,
        Err(stop) => {
            return Turn {
                way: Way::Stop(stop),
                stack,
            };
        }
    };
    if add_step(vars, v, entry) {
        return Turn {
            way: go_past(entry.place),
            stack,
        };
    }
    Turn {
        way: Way::On,
        stack: stack.pop().stack,
    }
}

// NEXT, if it goes back to its FOR: then the stack is as it was, and is only looked at. If not, nothing is done.
pub fn next_back(stack: ForStack, vars: &mut [u16], v: u8) -> Option<Place>
    ensures { backed result vars.new ≡ next_back stack vars.old v }
{
    let entry = for_of(stack, v).ok()?;
    let var = u32::from(v);
    let sum = value::add(var_of(vars, var), entry.step);
    if !goes_on(entry.step, sum, entry.limit) {
        return None;
    }
    set_var(vars, var, sum);
    Some(entry.place)
}

// UNTIL, if it goes back to its DO: the stack is only looked at.
pub fn until_back(stack: PlaceStack, x: u16) -> Option<Place>
    ensures { back_of result ≡ until_back x stack }
{
    if x == 0 { stack.top() } else { None }
}
