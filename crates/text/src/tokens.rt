// The tokens of a line.
ghost use Rattle.std.specs.Prelude.{◌≡◌, ◌==◌, length, get_or, position};
ghost use Rattle.numbers.specs.Tests.{all_of};
ghost use Rattle.program.specs.Names.{word_character};
ghost use Rattle.text.specs.Tokens.{printable, uncommented, tokens, joins};
ghost use Rattle.text.specs.Code.{no_word, Small, Room, key_with, value_with, grown, token_of, ends, no_token, no_tokens, packed};

use program::names;

// How many values a character of a key has.
const BYTE: u16 = 256;

// A token: its characters as a key, 0 where there are more than two; the number that they write, where they are at most `MOST_DIGITS` digits;
// and whether another token follows it directly.
// Stays: key 0 is no name and no sign, so no form takes it, and each slot compares keys and asks no case: `short_key` (specs/Code.antt) gives it.
#[derive(Clone, Copy)]
pub struct Token {
    pub value: Option<u64>,
    pub key: u16,
    pub glued: bool,
}

// The first tokens of a line, at most `MOST`, which are more than any statement has. The places behind them hold none; no form looks further.
// Stays: no call can fail, so there is no heap; the room is fixed, and `count` tells a form whose slots take all tokens from one that leaves some.
#[derive(Clone, Copy)]
pub struct Tokens {
    pub at: [Token; 12],
    pub count: usize,
}

// The characters of a token that are read so far: how many, their key, and the number that they write, where they are at most `MOST_DIGITS` digits.
#[derive(Clone, Copy)]
pub struct Word {
    pub size: usize,
    pub key: u16,
    pub value: Option<u64>,
}

impl Tokens {
    pub const MOST: usize = 9;

    fn none() -> Tokens
        ensures { result ≡ no_tokens }
    {
        Tokens {
            at: [Token::none(); 12],
            count: 0,
        }
    }
}

impl Token {
    pub const MOST_DIGITS: usize = 10;

    fn none() -> Token
        ensures { result ≡ no_token }
    {
        Token {
            key: 0,
            value: None,
            glued: false,
        }
    }
}

impl Word {
    fn none() -> Word
        ensures { result ≡ no_word }
    {
        Word {
            size: 0,
            key: 0,
            value: Some(0),
        }
    }

    // One character more; a space is none.
    fn grown(self, c: u8) -> Word
        requires { Room self }
        ensures { result ≡ grown self c }
    {
        if c == b' ' {
            return self;
        }
        Word {
            size: self.size + 1,
            key: key_with(self.size, self.key, c),
            value: value_with(self.size, self.value, c),
        }
    }

    // The token of these characters, with a character behind it.
    fn token(self, next: u8) -> Token
        ensures { result ≡ token_of self next }
    {
        Token {
            key: self.key,
            value: self.value,
            glued: next != b' ',
        }
    }
}

// The key of `size` characters and one more.
fn key_with(size: usize, key: u16, c: u8) -> u16
    ensures { result ≡ key_with size key c }
{
    match size {
        0 => u16::from(c),
        1 => key % BYTE + BYTE * u16::from(c),
        _ => 0,
    }
}

// The number that `size` characters write with one more.
fn value_with(size: usize, value: Option<u64>, c: u8) -> Option<u64>
    requires { Small size value }
    ensures { result ≡ value_with size value c }
{
    let value = value?;
    if names::is_digit(c) & (size < Token::MOST_DIGITS) {
        return Some(value * 10 + u64::from(c - b'0'));
    }
    None
}

fn is_word_character(c: u8) -> bool
    ensures { result ≡ word_character c }
{
    names::is_letter(c) | names::is_digit(c)
}

// Two neighbours that belong to one token.
fn joins(c: u8, d: u8) -> bool
    ensures { result ≡ joins c d }
{
    (is_word_character(c) & is_word_character(d))
        | (((c == b'<') & ((d == b'=') | (d == b'>'))) | ((c == b'>') & (d == b'=')))
}

// A token ends with c, with the character `next` behind it.
fn ends(c: u8, next: u8) -> bool
    ensures { result ≡ ends c next }
{
    (c != b' ') & !joins(c, next)
}

// The character at a place; a space past the end.
fn character(l: &[u8], at: usize) -> u8
    ensures { result ≡ get_or l.now at 32 }
{
    l.get(at).copied().unwrap_or(b' ')
}

// The bytes that a line may hold.
fn is_allowed(b: u8) -> bool
    ensures { result ≡ printable b }
{
    (b' ' <= b) & (b <= b'~')
}

// Every byte of a line may stand in a text.
pub fn is_printable(l: &[u8]) -> bool
    ensures { result ≡ all_of printable l.now }
{
    let mut all = true;
    for b in l {
        all &= is_allowed(*b);
    }
    all
}

// Where the comment of a line starts, if it has one.
fn comment_start(l: &[u8]) -> Option<usize>
    ensures { result ≡ position (λ c. c == 39) l.now }
{
    l.iter().position(|c| *c == b'\'')
}

// How many bytes of a line stand before its comment.
pub fn code_length(l: &[u8]) -> usize
    ensures { result ≡ length (uncommented l.now) }
{
    comment_start(l).unwrap_or(l.len())
}

// The first tokens of a line without its comment.
pub fn read_tokens(l: &[u8]) -> Tokens
    ensures { result ≡ packed (tokens l.now) }
{
    let mut ts = Tokens::none();
    let mut w = Word::none();
    for (i, c) in l.iter().enumerate() {
        let next = character(l, i + 1);
        w = w.grown(*c);
        if ends(*c, next) {
            let n = ts.count;
            if Tokens::MOST <= n {
                return ts;
            }
            ts.at[n] = w.token(next);
            ts.count = n + 1;
            w = Word::none();
        }
    }
    ts
}
