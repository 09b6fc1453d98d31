// What a call may be lent: one test for each thing, by its length or its number. Which of them a call asks is the call's own
// matter.
ghost use Rattle.std.specs.Prelude.{◌≡◌};
ghost use Rattle.nibl.specs.FirstRefusals.{page_in_range, memory_in_range, input_in_range, output_in_range, position_in_range, budget_in_range, table_in_range};

use crate::Call;

// Bytes of a page: at least its end mark.
const PAGE_LEAST: usize = 2;

pub const PAGE_MOST: usize = 4096;

const MEMORY_MOST: usize = 4096;

const INPUT_MOST: usize = 65535;

const OUTPUT_MOST: usize = 65535;

const BUDGET_MOST: usize = 65535;

// Entries of a table, where one is lent: a count, and a position for every four bytes of the longest page.
pub const TABLE_LEAST: usize = 1025;

pub fn page_in_range(n: usize) -> bool
    ensures { result ≡ page_in_range n }
{
    PAGE_LEAST <= n && n <= PAGE_MOST
}

pub fn memory_in_range(n: usize) -> bool
    ensures { result ≡ memory_in_range n }
{
    n <= MEMORY_MOST
}

pub fn input_in_range(n: usize) -> bool
    ensures { result ≡ input_in_range n }
{
    n <= INPUT_MOST
}

pub fn output_in_range(n: usize) -> bool
    ensures { result ≡ output_in_range n }
{
    n <= OUTPUT_MOST
}

// A position goes from 0 to the length.
pub fn position_in_range(at: usize, n: usize) -> bool
    ensures { result ≡ position_in_range at n }
{
    at <= n
}

pub fn budget_in_range(steps: usize) -> bool
    ensures { result ≡ budget_in_range steps }
{
    steps <= BUDGET_MOST
}

// A table that is not lent is not looked at.
pub fn table_in_range(call: Call, n: usize) -> bool
    ensures { result ≡ table_in_range call n }
{
    call.tabled == 0 || TABLE_LEAST <= n
}
