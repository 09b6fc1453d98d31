// The word that stands at a cursor of a text: always the longest that fits.
#![tactic(auto)]

ghost use Rattle.std.specs.Prelude.{ℕ, Bool, ◌+◌, ◌-◌, ◌*◌, ◌%◌, ◌≤◌, ◌<◌, ◌≡◌, true, false, not, ◌&&◌, ◌==◌, length, position, take, drop, get_or};
ghost use Rattle.std.proofs.Math.Seq.{slice};
ghost use Rattle.std.proofs.lemmas.List.Edits.{sets};
ghost use Rattle.nibl.specs.Bytes.{is_digit, is_capital, is_hex_digit, is_space, is_quotable, starts, front, past, all};
ghost use Rattle.nibl.specs.Words.{keywords, commands, is_symbol, pairs, begins};
ghost use Rattle.nibl.specs.found.GaveUp.{most_common};
ghost use Rattle.word.specs.Found.{perhaps, key_of, spelled_key, longest_keyword, key_common, most_key, spellings_of, keys_of, hex_digit, first_of, may_command, is_lone, PastIs};
ghost use Rattle.word.specs.Found.{AnswerIs, WordIs, letters_at, letters_left, decimal_at, decimal_left, decimal_word, hex_at, hex_word, quoted_at, quoted_left, symbol_at};

use letter::class;

pub mod sign;

// Where a reader stands in a text.
#[derive(Clone, Copy)]
pub struct Cursor {
    pub at: usize,
}

// What stands at a cursor, and the cursor past it.
#[derive(Clone, Copy)]
pub enum Word {
    // 0 for A to 25 for Z
    Variable(u8, Cursor),
    Decimal(u16, Cursor),
    Hex(u16, Cursor),
    // what the quotes enclose, from the first bound up to the second
    Text(usize, usize, Cursor),
    // a keyword, a pair or a symbol, by its number in `sign`
    Sign(u8, Cursor),
    // nothing but spaces
    End,
    // no word stands here; the cursor is at the byte at which none could go on
    Wrong(Cursor),
}

// The largest decimal constant.
pub const LARGEST: u32 = 32767;

// The most letters that a keyword has.
const LONGEST_KEYWORD: usize = 6;

// What a hex constant begins with.
pub const HASH: u8 = 35;

// The keywords in document 01's order, LET first and NOT last. A spelling is one number, its first letter in the
// lowest byte: it is compared at one blow, and read from right to left it shows in the hexadecimal digits.
pub const KEYWORDS: [u64; 25] = [
    0x54454c, // LET
    0x4f47, // GO
    0x4f54, // TO
    0x425553, // SUB
    0x4f544f47, // GOTO
    0x4255534f47, // GOSUB
    0x4e5255544552, // RETURN
    0x5250, // PR
    0x544e495250, // PRINT
    0x4649, // IF
    0x4e454854, // THEN
    0x4f44, // DO
    0x4c49544e55, // UNTIL
    0x524f46, // FOR
    0x50455453, // STEP
    0x5458454e, // NEXT
    0x5455504e49, // INPUT
    0x4d4552, // REM
    0x444e45, // END
    0x54415453, // STAT
    0x504f54, // TOP
    0x444f4d, // MOD
    0x444e41, // AND
    0x524f, // OR
    0x544f4e, // NOT
];

// The commands, which only the front of an immediate line may hold.
const NEW: u64 = 0x57454e;

const CLEAR: u64 = 0x5241454c43;

const LIST: u64 = 0x5453494c;

const RUN: u64 = 0x4e5552;

pub const COMMANDS: [u64; 4] = [NEW, CLEAR, LIST, RUN];

// So many letters tell a command from every statement, NEW from NEXT too. And those letters of each command: its lowest bytes.
const FRONT: usize = 3;

const FRONTS: u64 = 256 * 256 * 256;

const COMMAND_FRONTS: [u64; 4] = [NEW % FRONTS, CLEAR % FRONTS, LIST % FRONTS, RUN % FRONTS];

fn is_symbol(b: u8) -> bool
    ensures { result ≡ is_symbol b }
{
    // The ranges by themselves and first: most symbols lie in them, and one pattern of all would ask for the others first.
    matches!(b, sign::OPEN..=sign::MINUS | sign::COLON..=sign::GREATER)
        || matches!(b, sign::DOLLAR | sign::DIVIDE | sign::AT)
}

// Where the longest run from `from` on of bytes that pass ends.
fn run_end<F: Fn(u8) -> bool>(text: &[u8], from: usize, passes: F) -> usize
    requires { F.IsAlwaysCallable passes }
    ensures { (p : ℕ → Bool) → ((b : ℕ) (r : Bool) → b < 256 → F.post passes b r → r ≡ p b) → result ≡ from + length (front p (drop from text.now)) }
{
    for i in from..text.len() {
        if !passes(text[i]) {
            return i;
        }
    }
    text.len().max(from)
}

// A spelling of at most 6 letters as one number, the way the lists have it.
fn key(letters: &[u8]) -> u64
    requires { length letters.now ≤ longest_keyword }
    ensures { result ≡ key_of letters.now }
{
    let mut k: u64 = 0;
    for i in (0..letters.len()).rev() {
        k = k * 256 + u64::from(letters[i]);
    }
    k
}

// The other way: the letters of a key at the front of a room, as many as there is room for, and how many they are.
pub fn spell(k: u64, room: &mut [u8]) -> usize
    ensures letters { result ≡ length (spelled_key (length room.old) k) }
    ensures room { room.new ≡ sets room.old 0 (spelled_key (length room.old) k) }
{
    let mut rest = k;
    for (n, slot) in room.iter_mut().enumerate() {
        if rest == 0 {
            return n;
        }
        *slot = (rest % 256) as u8;
        rest /= 256;
    }
    room.len()
}

// The index of a key in a list of them.
fn index_of(keys: &[u64], k: u64) -> Option<usize>
    ensures { result ≡ position (λ x. x == k) keys.now }
{
    keys.iter().position(|x| *x == k)
}

// That of a keyword, or of a command at the front of an immediate line.
fn keyword_of(k: u64, commands: bool) -> Option<usize>
    ensures { result ≡ position (λ x. x == k) (keys_of commands) }
{
    if commands {
        index_of(&COMMANDS, k)
    } else {
        index_of(&KEYWORDS, k)
    }
}

// Where the letters that a keyword at `from` may have end: at the end of the run of capitals, or after the most that a
// keyword has. So a long run is not looked at to its end again for each word in it.
fn letters_end(text: &[u8], from: usize) -> usize
    requires { from < length text.now }
    ensures { result ≡ from + length (front is_capital (take longest_keyword (drop from text.now))) }
{
    if text.len() - from <= LONGEST_KEYWORD {
        return run_end(text, from, letter::is_capital);
    }
    run_end(&text[..from + LONGEST_KEYWORD], from, letter::is_capital)
}

// Whether a letter stands at a position.
fn letter_at(text: &[u8], at: usize) -> bool
    ensures { result ≡ starts is_capital (drop at text.now) }
{
    text.get(at).is_some_and(|b| letter::is_capital(*b))
}

// How many letters a spelling, as one number, has in common with a text.
fn common(spelling: u64, text: &[u8]) -> usize
    ensures { result ≡ key_common spelling text.now }
{
    let mut k = spelling;
    for (i, b) in text.iter().enumerate() {
        if k == 0 || k % 256 != u64::from(*b) {
            return i;
        }
        k /= 256;
    }
    text.len()
}

// The most letters that a key of a list has in common with a text, but one at least: a letter may always be a variable.
fn most_common(keys: &[u64], text: &[u8]) -> usize
    ensures { result ≡ most_key keys.now text.now }
{
    let mut most = 1;
    for k in keys {
        most = most.max(common(*k, text));
    }
    most
}

// The letter at which the last keyword parts from the letters at `from`. It is asked for only where no word stands.
fn parting(text: &[u8], from: usize, commands: bool) -> usize
    requires { from < length text.now }
    ensures { result ≡ from + most_common (spellings_of commands) (drop from text.now) }
{
    if commands {
        from + most_common(&COMMANDS, &text[from..])
    } else {
        from + most_common(&KEYWORDS, &text[from..])
    }
}

// The word at a capital: the longest keyword that begins there; if none does, a letter that no letter follows. No keyword is a
// letter alone, so most letters need no look into the lists.
fn letters(text: &[u8], from: usize, commands: bool) -> Word
    requires { (from < length text.now) × (is_capital (get_or text.now from 0) ≡ true) }
    ensures { AnswerIs (letters_at (spellings_of commands)) (letters_left (spellings_of commands)) text.now from result }
{
    let next = from + 1;
    if !letter_at(text, next) {
        return Word::Variable(text[from] - letter::A, Cursor { at: next });
    }
    for to in (from + 2..=letters_end(text, from)).rev() {
        if let Some(i) = keyword_of(key(&text[from..to]), commands) {
            return Word::Sign(sign::KEYWORD + i as u8, Cursor { at: to });
        }
    }
    Word::Wrong(Cursor {
        at: parting(text, from, commands),
    })
}

fn digit(b: u8) -> u32
    requires { is_digit b ≡ true }
    ensures { (result ≡ b - 48) × (result ≤ 9) }
{
    u32::from(b - nibl::ZERO)
}

// The value of the digits at `from` and the position past them. Once it is too large, more digits keep it so: no word goes on
// past the digit that passes, whose position it is then.
pub fn decimal_at(text: &[u8], from: usize) -> Result<(u16, usize), usize>
    requires { (from < length text.now) × (is_digit (get_or text.now from 0) ≡ true) }
    ensures { AnswerIs decimal_at decimal_left text.now from (decimal_word result) }
{
    let mut v: u32 = 0;
    for i in from..text.len() {
        let b = text[i];
        if !letter::is_digit(b) {
            return Ok((v as u16, i));
        }
        v = v * 10 + digit(b);
        if LARGEST < v {
            return Err(i);
        }
    }
    Ok((v as u16, text.len()))
}

// The constant whose first digit stands at `from`.
fn decimal(text: &[u8], from: usize) -> Word
    requires { (from < length text.now) × (is_digit (get_or text.now from 0) ≡ true) }
    ensures { AnswerIs decimal_at decimal_left text.now from result }
{
    match decimal_at(text, from) {
        Ok((v, at)) => Word::Decimal(v, Cursor { at }),
        Err(at) => Word::Wrong(Cursor { at }),
    }
}

fn hex_digit(b: u8) -> u16
    requires { is_hex_digit b ≡ true }
    ensures { (result ≡ hex_digit b) × (result ≤ 15) }
{
    if letter::is_digit(b) {
        return u16::from(b - nibl::ZERO);
    }
    u16::from(b - letter::A + 10)
}

// One hex digit more, in 16 bits: the top digit falls out.
fn shifted(v: u16, b: u8) -> u16
    requires { is_hex_digit b ≡ true }
    ensures { result ≡ v % 4096 * 16 + hex_digit b }
{
    v % 4096 * 16 + hex_digit(b)
}

// The low 16 bits of the value of the hex digits at `from` and the position past them, where there are any.
pub fn hex_at(text: &[u8], from: usize) -> Option<(u16, usize)>
    requires { from ≤ length text.now }
    ensures { AnswerIs hex_at length text.now from (hex_word from result) }
{
    let mut v: u16 = 0;
    for i in from..text.len() {
        let b = text[i];
        if !letter::is_hex_digit(b) {
            return (i != from).then_some((v, i));
        }
        v = shifted(v, b);
    }
    (text.len() != from).then_some((v, text.len()))
}

// The constant whose digits start at `from`, past the "#".
fn hex(text: &[u8], from: usize) -> Word
    requires { from ≤ length text.now }
    ensures { AnswerIs hex_at length text.now from result }
{
    match hex_at(text, from) {
        Some((v, at)) => Word::Hex(v, Cursor { at }),
        None => Word::Wrong(Cursor { at: from }),
    }
}

// The string whose first byte stands at `from`, past the opening quote.
fn quoted(text: &[u8], from: usize) -> Word
    ensures { AnswerIs quoted_at quoted_left text.now from result }
{
    let to = run_end(text, from, letter::is_quotable);
    let Some(b) = text.get(to) else {
        return Word::Wrong(Cursor { at: text.len() });
    };
    if !letter::is_quote(*b) {
        return Word::Wrong(Cursor { at: to });
    }
    Word::Text(from, to, Cursor { at: to + 1 })
}

// The number of <= >= <>.
fn pair(a: u8, b: u8) -> Option<u8>
    ensures { result ≡ perhaps (pairs a b) }
{
    match (a, b) {
        (sign::LESS, sign::EQUAL) => Some(sign::AT_MOST),
        (sign::LESS, sign::GREATER) => Some(sign::UNEQUAL),
        (sign::GREATER, sign::EQUAL) => Some(sign::AT_LEAST),
        _ => None,
    }
}

// A pair or a symbol.
fn symbol(text: &[u8], from: usize) -> Word
    requires { from < length text.now }
    ensures { AnswerIs symbol_at length text.now from result }
{
    let a = text[from];
    let n = from + 1;
    if !is_symbol(a) {
        return Word::Wrong(Cursor { at: from });
    }
    match pair(a, byte_at(text, n)) {
        Some(k) => Word::Sign(k, Cursor { at: n + 1 }),
        None => Word::Sign(a, Cursor { at: n }),
    }
}

// The word at a byte that is no space, by the keywords or by the commands.
fn word_here(text: &[u8], i: usize, commands: bool) -> Word
    requires { (i < length text.now) × (is_space (get_or text.now i 0) ≡ false) }
    ensures { WordIs (spellings_of commands) text.now i result }
{
    let b = text[i];
    match letter::class_by_range(b) {
        class::CAPITAL => letters(text, i, commands),
        class::DIGIT => decimal(text, i),
        class::QUOTE => quoted(text, i + 1),
        _ => {
            if b == HASH {
                return hex(text, i + 1);
            }
            symbol(text, i)
        }
    }
}

// The word at a cursor, past any spaces. Every word is read here, so the loop over the spaces answers by itself where the
// text ends: nothing is tested twice.
fn word_in(text: &[u8], from: usize, commands: bool) -> Word
    ensures { WordIs (spellings_of commands) text.now from result }
{
    for i in from..text.len() {
        if !letter::is_space(text[i]) {
            return word_here(text, i, commands);
        }
    }
    Word::End
}

// The word that stands at a cursor of any text.
pub fn word_at(text: &[u8], c: Cursor) -> Word
    ensures { WordIs keywords text.now c.at result }
{
    word_in(text, c.at, false)
}

// The word that stands at a cursor, where commands are the keywords: at the front of an immediate line.
pub fn command_at(text: &[u8], c: Cursor) -> Word
    ensures { WordIs commands text.now c.at result }
{
    word_in(text, c.at, true)
}

// Where the spaces from a position on end.
pub fn space_end(text: &[u8], from: usize) -> usize
    ensures { result ≡ from + length (front is_space (drop from text.now)) }
{
    run_end(text, from, letter::is_space)
}

// The byte at a position; 0 where the text has ended. It is no Option: 0 is no byte of a text, and is tested as any byte is.
pub fn byte_at(text: &[u8], at: usize) -> u8
    ensures { result ≡ get_or text.now at 0 }
{
    text.get(at).copied().unwrap_or(0)
}

// Whether a spelling stands at a position.
pub fn stands(text: &[u8], at: usize, spelling: &[u8]) -> bool
    ensures { result ≡ begins spelling.now (drop at text.now) }
{
    // `starts_with` of the rest was tried and is slower: where one spelling after another is asked for, the byte at a
    // position is then not read once for all of them.
    for (i, b) in spelling.iter().enumerate() {
        let k = at + i;
        if text.len() <= k || text[k] != *b {
            return false;
        }
    }
    true
}

// Past a symbol that begins no pair, where it stands next.
pub fn past_symbol(text: &[u8], from: usize, b: u8) -> Option<usize>
    requires { is_lone b ≡ true }
    ensures { PastIs b text.now from result }
{
    let i = space_end(text, from);
    if byte_at(text, i) == b {
        return Some(i + 1);
    }
    None
}

// Whether a variable stands at a position: a letter that no letter follows.
pub fn is_variable(text: &[u8], at: usize) -> bool
    ensures { result ≡ (starts is_capital (drop at text.now) && not (starts is_capital (drop (at + 1) text.now))) }
{
    letter_at(text, at) && !letter_at(text, at + 1)
}

// The first byte of the word at a cursor, past any spaces; 0 where nothing but spaces follows, as `first_of` has it.
pub fn first_at(text: &[u8], c: Cursor) -> u8
    ensures { result ≡ first_of (past is_space (drop c.at text.now)) }
{
    byte_at(text, space_end(text, c.at))
}

// Whether nothing but spaces stands from a cursor on.
pub fn is_blank(text: &[u8], c: Cursor) -> bool
    ensures { result ≡ all is_space (drop c.at text.now) }
{
    text.len() <= space_end(text, c.at)
}

// Whether a command may stand at a cursor, past any spaces, by its first letters: at less cost than a look for the word.
pub fn may_command(text: &[u8], c: Cursor) -> bool
    ensures { result ≡ may_command (past is_space (drop c.at text.now)) }
{
    let i = space_end(text, c.at);
    letter_at(text, i)
        && FRONT <= text.len() - i
        && index_of(&COMMAND_FRONTS, key(&text[i..i + FRONT])).is_some()
}
