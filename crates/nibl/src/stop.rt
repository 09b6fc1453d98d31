// Document 01's stop numbers, and document 02's, by the names that hosts have for them. A type of its own and no enum: what takes a
// stop (`Answer::of`, and crate outcome's and effect's ends) promises its answer for every number, and an enum would ask for fewer.
#[derive(Clone, Copy, PartialEq, Eq)]
pub struct Stop(pub u8);

impl Stop {
    // Done; past the last line; RETURN to the immediate mark.
    pub const DONE: Stop = Stop(0);

    // A length, position or budget outside the limits.
    pub const OUT_OF_RANGE: Stop = Stop(1);

    // The edited program would not fit the page.
    pub const PAGE_FULL: Stop = Stop(2);

    // DO, UNTIL, FOR, NEXT or INPUT in an immediate line.
    pub const NOT_IMMEDIATE: Stop = Stop(3);

    // Over-long typed line, or no reading.
    pub const NO_READING: Stop = Stop(5);

    // Reply over-long or not in its form.
    pub const BAD_REPLY: Stop = Stop(6);

    // No CR left in the input.
    pub const NO_CR: Stop = Stop(7);

    // GOTO or GOSUB to a line not there.
    pub const NO_SUCH_LINE: Stop = Stop(8);

    // RETURN with its stack empty.
    pub const NO_GOSUB: Stop = Stop(9);

    // Past 8 GOSUBs, 8 DOs or 4 FORs.
    pub const TOO_DEEP: Stop = Stop(10);

    // NEXT with no FOR.
    pub const NO_FOR: Stop = Stop(11);

    // NEXT with another variable.
    pub const OTHER_VARIABLE: Stop = Stop(12);

    // Division or MOD by 0.
    pub const DIVISION_BY_ZERO: Stop = Stop(13);

    // Budget spent and a statement still to run.
    pub const PAUSED: Stop = Stop(14);

    // UNTIL with its stack empty.
    pub const NO_DO: Stop = Stop(15);

    // A memory byte needed is not there, or no CR found.
    pub const NO_MEMORY: Stop = Stop(16);

    // An output item does not fit whole.
    pub const OUTPUT_FULL: Stop = Stop(17);

    pub const BAD_PAGE: Stop = Stop(18);

    // The session record does not fit.
    pub const BAD_RECORD: Stop = Stop(19);

    pub const END: Stop = Stop(20);

    // A memory byte that is not this box's to read or write.
    pub const NOT_ITS_OWN: Stop = Stop(21);

    // Load: another form number, or none.
    pub const OTHER_FORM: Stop = Stop(22);

    // Load: counts, records or length wrong.
    pub const BAD_FORM: Stop = Stop(23);

    // Load: the form's memory has another length.
    pub const OTHER_MEMORY: Stop = Stop(24);

    // The table does not describe the page.
    pub const BAD_TABLE: Stop = Stop(26);
}
