// What values are worked out from. It stands in a file of its own, so that specs/ may name it.

ghost use Rattle.std.specs.Prelude.{◌<◌};
ghost use Rattle.nibl.specs.Page.{used};

use nibl::access::Sight;

// A page's used bytes are TOP, a 16-bit number.
#[derive(Clone, Copy)]
pub struct Sources<'a> {
    pub vars: &'a [u16],
    pub flags: u8,
    pub sight: Sight,
    pub page: &'a [u8],
    pub memory: &'a [u8],
    ghost short: { used page.now < 65536 },
}
