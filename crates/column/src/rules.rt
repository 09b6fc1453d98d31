// What may come next in a line, by numbers, and the rules: which words may come, and what may come after each.
ghost use Rattle.std.specs.Prelude.{◌≤◌, ◌<◌, ◌≡◌, true, length, IfSome};
ghost use Rattle.nibl.specs.Bytes.{all};
ghost use Rattle.nibl.specs.found.Column.{cases_of, case_in};
ghost use Rattle.column.specs.Rules.{read, is_rule, next_of, SeekIs, Pushed};

use value::put_bytes;
use word::sign;

// What a word is to the rules: a sign by its number, and each other kind by one of these.
pub const NAME: u8 = 5;

pub const DECIMAL: u8 = 6;

pub const HEX: u8 = 7;

pub const TEXT: u8 = 8;

// What may come: numbers, since the definition of the column (nibl's found/Column, `turn`) has them too.
const FACTOR: u8 = 1;

const FIRST_FACTOR: u8 = 2;

const CLOSING: u8 = 3;

const MOD_OPEN: u8 = 4;

const MOD_COMMA: u8 = 5;

const TARGET: u8 = 6;

const EQUALS: u8 = 7;

const TEXT_EQUALS: u8 = 8;

const TEXT_VALUE: u8 = 9;

const STATEMENT: u8 = 10;

const AFTER_GO: u8 = 11;

const ITEM: u8 = 12;

const CONSEQUENCE: u8 = 13;

const FOR_VARIABLE: u8 = 14;

const FOR_EQUALS: u8 = 15;

const FOR_TO: u8 = 16;

const ONE_VARIABLE: u8 = 17;

const INPUT_TARGET: u8 = 18;

pub const TYPED_LINE: u8 = 19;

pub const TYPED_COMMAND: u8 = 20;

pub const REMARK: u8 = 21;

// From here on: what may come, and need not.
const MORE_OF_RELATION: u8 = 22;

const MORE_OF_SUM: u8 = 23;

const MORE_ITEMS: u8 = 24;

const FOR_STEP: u8 = 25;

const MORE_VARIABLES: u8 = 26;

const MORE_MEMBERS: u8 = 27;

const LIST_NUMBER: u8 = 28;

// A word, how many may come after it, and these, with 0 in the rest. No reference stands in a constant here: each is read alike whatever a
// pointer's size is.
type Rule = (u8, u8, [u8; 4]);

const NONE: [u8; 4] = [0; 4];

// Where a relation may come.
const A_RELATION: [u8; 4] = [FIRST_FACTOR, MORE_OF_RELATION, 0, 0];

// The rules that what may come has of its own, and what else it has the rules of, behind those: always one with a smaller number.
fn row(x: u8) -> (&'static [Rule], Option<u8>)
    ensures cases { read result ≡ cases_of x }
    ensures below { IfSome result.1 (λ y. y < x) }
    ensures counts { all is_rule result.0.now ≡ true }
{
    match x {
        FACTOR => (
            &[
                (NAME, 0, NONE),
                (DECIMAL, 0, NONE),
                (HEX, 0, NONE),
                (sign::STAT, 0, NONE),
                (sign::TOP, 0, NONE),
                (sign::OPEN, 3, [FIRST_FACTOR, MORE_OF_RELATION, CLOSING, 0]),
                (sign::AT, 1, [FACTOR, 0, 0, 0]),
                (sign::NOT, 1, [FACTOR, 0, 0, 0]),
                (sign::MOD, 1, [MOD_OPEN, 0, 0, 0]),
            ],
            None,
        ),
        FIRST_FACTOR => (
            &[
                (sign::PLUS, 1, [FACTOR, 0, 0, 0]),
                (sign::MINUS, 1, [FACTOR, 0, 0, 0]),
            ],
            Some(FACTOR),
        ),
        CLOSING => (&[(sign::CLOSE, 0, NONE)], None),
        MOD_OPEN => (
            &[(
                sign::OPEN,
                3,
                [FIRST_FACTOR, MORE_OF_RELATION, MOD_COMMA, 0],
            )],
            None,
        ),
        MOD_COMMA => (
            &[(sign::COMMA, 3, [FIRST_FACTOR, MORE_OF_RELATION, CLOSING, 0])],
            None,
        ),
        TARGET => (
            &[
                (NAME, 1, [EQUALS, 0, 0, 0]),
                (sign::STAT, 1, [EQUALS, 0, 0, 0]),
                (sign::AT, 2, [FACTOR, EQUALS, 0, 0]),
                (sign::DOLLAR, 2, [FACTOR, TEXT_EQUALS, 0, 0]),
            ],
            None,
        ),
        EQUALS => (&[(sign::EQUAL, 2, A_RELATION)], None),
        TEXT_EQUALS => (&[(sign::EQUAL, 1, [TEXT_VALUE, 0, 0, 0])], None),
        TEXT_VALUE => (
            &[(TEXT, 0, NONE), (sign::DOLLAR, 1, [FACTOR, 0, 0, 0])],
            None,
        ),
        STATEMENT => (
            &[
                (sign::LET, 1, [TARGET, 0, 0, 0]),
                (sign::GOTO, 2, A_RELATION),
                (sign::GOSUB, 2, A_RELATION),
                (sign::GO, 1, [AFTER_GO, 0, 0, 0]),
                (sign::RETURN, 0, NONE),
                (sign::PR, 2, [ITEM, MORE_ITEMS, 0, 0]),
                (sign::PRINT, 2, [ITEM, MORE_ITEMS, 0, 0]),
                (
                    sign::IF,
                    3,
                    [FIRST_FACTOR, MORE_OF_RELATION, CONSEQUENCE, 0],
                ),
                (sign::DO, 0, NONE),
                (sign::UNTIL, 2, A_RELATION),
                (sign::FOR, 1, [FOR_VARIABLE, 0, 0, 0]),
                (sign::NEXT, 1, [ONE_VARIABLE, 0, 0, 0]),
                (sign::INPUT, 1, [INPUT_TARGET, 0, 0, 0]),
                (sign::REM, 1, [REMARK, 0, 0, 0]),
                (sign::END, 0, NONE),
            ],
            Some(TARGET),
        ),
        AFTER_GO => (
            &[(sign::TO, 2, A_RELATION), (sign::SUB, 2, A_RELATION)],
            None,
        ),
        ITEM => (
            &[
                (TEXT, 0, NONE),
                (sign::DOLLAR, 1, [FACTOR, 0, 0, 0]),
                (sign::PLUS, 2, [FACTOR, MORE_OF_RELATION, 0, 0]),
                (sign::MINUS, 2, [FACTOR, MORE_OF_RELATION, 0, 0]),
                (NAME, 1, [MORE_OF_RELATION, 0, 0, 0]),
                (DECIMAL, 1, [MORE_OF_RELATION, 0, 0, 0]),
                (HEX, 1, [MORE_OF_RELATION, 0, 0, 0]),
                (sign::STAT, 1, [MORE_OF_RELATION, 0, 0, 0]),
                (sign::TOP, 1, [MORE_OF_RELATION, 0, 0, 0]),
                (
                    sign::OPEN,
                    4,
                    [FIRST_FACTOR, MORE_OF_RELATION, CLOSING, MORE_OF_RELATION],
                ),
                (sign::AT, 2, [FACTOR, MORE_OF_RELATION, 0, 0]),
                (sign::NOT, 2, [FACTOR, MORE_OF_RELATION, 0, 0]),
                (sign::MOD, 2, [MOD_OPEN, MORE_OF_RELATION, 0, 0]),
            ],
            None,
        ),
        CONSEQUENCE => (&[(sign::THEN, 1, [STATEMENT, 0, 0, 0])], Some(STATEMENT)),
        FOR_VARIABLE => (&[(NAME, 1, [FOR_EQUALS, 0, 0, 0])], None),
        FOR_EQUALS => (
            &[(sign::EQUAL, 3, [FIRST_FACTOR, MORE_OF_RELATION, FOR_TO, 0])],
            None,
        ),
        FOR_TO => (
            &[(sign::TO, 3, [FIRST_FACTOR, MORE_OF_RELATION, FOR_STEP, 0])],
            None,
        ),
        ONE_VARIABLE => (&[(NAME, 0, NONE)], None),
        INPUT_TARGET => (
            &[
                (sign::DOLLAR, 1, [FACTOR, 0, 0, 0]),
                (NAME, 1, [MORE_VARIABLES, 0, 0, 0]),
            ],
            None,
        ),
        TYPED_LINE => (
            &[(DECIMAL, 2, [STATEMENT, MORE_MEMBERS, 0, 0])],
            Some(STATEMENT),
        ),
        TYPED_COMMAND => (
            &[
                (sign::NEW, 0, NONE),
                (sign::CLEAR, 0, NONE),
                (sign::RUN, 0, NONE),
                (sign::LIST, 1, [LIST_NUMBER, 0, 0, 0]),
            ],
            None,
        ),
        MORE_OF_RELATION => (
            &[
                (sign::TIMES, 2, [FACTOR, MORE_OF_RELATION, 0, 0]),
                (sign::DIVIDE, 2, [FACTOR, MORE_OF_RELATION, 0, 0]),
                (sign::AND, 2, [FACTOR, MORE_OF_RELATION, 0, 0]),
                (sign::PLUS, 2, [FACTOR, MORE_OF_RELATION, 0, 0]),
                (sign::MINUS, 2, [FACTOR, MORE_OF_RELATION, 0, 0]),
                (sign::OR, 2, [FACTOR, MORE_OF_RELATION, 0, 0]),
                (sign::EQUAL, 2, [FIRST_FACTOR, MORE_OF_SUM, 0, 0]),
                (sign::LESS, 2, [FIRST_FACTOR, MORE_OF_SUM, 0, 0]),
                (sign::GREATER, 2, [FIRST_FACTOR, MORE_OF_SUM, 0, 0]),
                (sign::AT_MOST, 2, [FIRST_FACTOR, MORE_OF_SUM, 0, 0]),
                (sign::AT_LEAST, 2, [FIRST_FACTOR, MORE_OF_SUM, 0, 0]),
                (sign::UNEQUAL, 2, [FIRST_FACTOR, MORE_OF_SUM, 0, 0]),
            ],
            None,
        ),
        MORE_OF_SUM => (
            &[
                (sign::TIMES, 2, [FACTOR, MORE_OF_SUM, 0, 0]),
                (sign::DIVIDE, 2, [FACTOR, MORE_OF_SUM, 0, 0]),
                (sign::AND, 2, [FACTOR, MORE_OF_SUM, 0, 0]),
                (sign::PLUS, 2, [FACTOR, MORE_OF_SUM, 0, 0]),
                (sign::MINUS, 2, [FACTOR, MORE_OF_SUM, 0, 0]),
                (sign::OR, 2, [FACTOR, MORE_OF_SUM, 0, 0]),
            ],
            None,
        ),
        MORE_ITEMS => (
            &[
                (sign::COMMA, 2, [ITEM, MORE_ITEMS, 0, 0]),
                (sign::SEMICOLON, 0, NONE),
            ],
            None,
        ),
        FOR_STEP => (&[(sign::STEP, 2, A_RELATION)], None),
        MORE_VARIABLES => (
            &[(sign::COMMA, 2, [ONE_VARIABLE, MORE_VARIABLES, 0, 0])],
            None,
        ),
        MORE_MEMBERS => (&[(sign::COLON, 2, [STATEMENT, MORE_MEMBERS, 0, 0])], None),
        LIST_NUMBER => (&[(DECIMAL, 0, NONE)], None),
        _ => (&[], None),
    }
}

// What may come after the word k where x may come, if x begins with that word.
fn rule(x: u8, k: u8) -> Option<&'static [u8]>
    ensures { next_of result ≡ case_in (cases_of x) k }
{
    let mut y = Some(x);
    while let Some(x) = y {
        let (own, also) = row(x);
        if let Some(rule) = own.iter().find(|rule| rule.0 == k) {
            let after: &[u8] = &rule.2;
            return Some(&after[..usize::from(rule.1)]);
        }
        y = also;
    }
    None
}

// Of what may come: where the first stands that begins with a word, and what may come after that word.
#[derive(Clone, Copy)]
pub struct Turn {
    pub at: usize,
    pub next: &'static [u8],
}

// What may come lies on a stack, from `top` on to its end.
pub fn seek(stack: &[u8], top: usize, k: u8) -> Option<Turn>
    requires { top ≤ length stack.now }
    ensures { SeekIs stack.now top k result }
{
    for at in top..stack.len() {
        let x = stack[at];
        if let Some(next) = rule(x, k) {
            return Some(Turn { at, next });
        }
        if x < MORE_OF_RELATION {
            return None;
        }
    }
    None
}

// What may come after a word, on the stack before `top`; where it begins there.
pub fn push(stack: &mut [u8], top: usize, next: &[u8]) -> usize
    requires { (length next.now ≤ top) × (top ≤ length stack.old) }
    ensures { Pushed stack.old top next.now stack.new result }
{
    let to = top - next.len();
    put_bytes(&mut stack[to..top], next);
    to
}
