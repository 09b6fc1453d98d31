// Does a session record fit a page: any record whatever, and any bytes, are looked at safely.
#![tactic(auto)]

ghost use Rattle.std.specs.Prelude.{◌≤◌, ◌≡◌, take};
ghost use Rattle.nibl.specs.Bytes.{all};
ghost use Rattle.nibl.specs.Page.{places_of, fits_paused, fits};
ghost use Rattle.nibl.specs.Record.{position_of, paused_at};
ghost use Rattle.record.specs.Fits.{is_saved, is_under_way, stacks_fit};

use nibl::{ForEntry, ForStack, Onward, Place, PlaceStack, Session};

// The last variable, and all flags set.
const LAST_VARIABLE: u8 = nibl::VARIABLES as u8 - 1;

const ALL_FLAGS: u8 = nibl::FLAGS as u8 - 1;

// Whether a saved place is one of the page's, or the immediate mark where that may stand.
fn is_saved(page: &[u8], place: Place, marked: bool) -> bool
    ensures { result ≡ is_saved (places_of page.now) marked place }
{
    places::is_place(page, place) || (marked && place.is_mark())
}

// Whether the live slots of a stack hold such places.
fn fits_places(page: &[u8], stack: PlaceStack, marked: bool) -> bool
    requires { stack.depth ≤ 8 }
    ensures { result ≡ all (is_saved (places_of page.now) marked) (take stack.depth stack.places) }
{
    stack.places[..stack.depth]
        .iter()
        .all(|p| is_saved(page, *p, marked))
}

// Whether a FOR under way names a variable and a place of the page.
fn is_under_way(page: &[u8], entry: ForEntry) -> bool
    ensures { result ≡ is_under_way (places_of page.now) entry }
{
    entry.var <= LAST_VARIABLE && places::is_place(page, entry.place)
}

fn fits_fors(page: &[u8], stack: ForStack) -> bool
    requires { stack.depth ≤ 4 }
    ensures { result ≡ all (is_under_way (places_of page.now)) (take stack.depth stack.entries) }
{
    stack.entries[..stack.depth]
        .iter()
        .all(|e| is_under_way(page, *e))
}

// Whether a run may go on there.
fn may_go_on(page: &[u8], onward: Onward) -> bool
    ensures { result ≡ fits_paused (places_of page.now) (paused_at (position_of onward)) }
{
    match onward {
        Onward::Start => true,
        Onward::After(p) => places::is_place(page, p),
    }
}

fn fits_paused(page: &[u8], number: u16) -> bool
    ensures { result ≡ fits_paused (places_of page.now) number }
{
    match Onward::paused(number) {
        None => true,
        Some(onward) => may_go_on(page, onward),
    }
}

// Every live place is looked up, at most 21 of them.
fn fits_stacks(page: &[u8], session: Session) -> bool
    requires { (session.gosubs.depth ≤ 8) × ((session.dos.depth ≤ 8) × (session.fors.depth ≤ 4)) }
    ensures { result ≡ stacks_fit (places_of page.now) session }
{
    fits_places(page, session.gosubs, true)
        && fits_places(page, session.dos, false)
        && fits_fors(page, session.fors)
}

pub fn fits(page: &[u8], session: Session) -> bool
    ensures { result ≡ fits page.now session }
{
    session.gosubs.depth <= nibl::GOSUBS
        && session.dos.depth <= nibl::GOSUBS
        && session.fors.depth <= nibl::FORS
        && fits_stacks(page, session)
        && session.flags <= ALL_FLAGS
        && fits_paused(page, session.paused)
}
