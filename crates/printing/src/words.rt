// Words: a few bytes as one number, the lowest first, none of them 0. Numbers as words, and words on a page.
// Stays: no call can fail, so no heap: a line of pieces of many lengths stands in one array of fixed size only as numbers; `packed` (specs/Code.antt) says the bytes of each, and `opening_text` and its kin go by it.
ghost use Rattle.std.specs.Prelude.{◌≡◌, ◌≤◌, ◌<◌};
ghost use mathlib.Core.List.{◌++◌, flat_map};
ghost use Rattle.numbers.specs.Bytes.{number};
ghost use Rattle.numbers.specs.Bits.{signed32};
ghost use Rattle.printing.specs.Listing.{printed, width, plain};
ghost use Rattle.printing.specs.Code.{packed, at_least, Put};

use crate::Two;

// Signs and endings.
pub const END: u64 = b'\n' as u64;

pub const EQUALS: u64 = b'=' as u64;

const MINUS: u64 = b'-' as u64;

const ZERO: u64 = b'0' as u64;

// The most digits that go into one word here, and the first number that has more.
const FEW: usize = 5;

const MANY: u32 = 100000;

// Adds words to a page, and tells the place behind them. What there is no room for is left out.
pub fn put(page: &mut [u8], at: usize, words: &[u64]) -> usize
    ensures { Put (flat_map packed words.now) page.old at result page.new }
{
    let mut i = at;
    for word in words {
        let mut rest = *word;
        // Stays: the loop ends with the number and no range counts it: `for byte in word.to_le_bytes()` would need a test for the zeros behind in every turn.
        while rest != 0 {
            if page.len() <= i {
                return i;
            }
            page[i] = (rest % 256) as u8;
            rest = rest / 256;
            i += 1;
        }
    }
    i
}

// A number below 100,000 in decimal, as a word, in no fewer digits than asked for.
// Stays: the clause says which digits stand in the word (`printed`), and what `write!` gives has no such clause; the loop is five lines.
fn digits(n: u32, least: usize) -> u64
    requires { (n < 100000) × (0 < least) × (least ≤ 5) }
    ensures { (result ≡ number (printed (at_least least (width n)) n)) × (result < 1099511627776) }
{
    let mut word: u64 = 0;
    let mut rest = n;
    for count in 0..FEW {
        if (rest == 0) & (least <= count) {
            return word;
        }
        word = word * 256 + (ZERO + (rest % 10) as u64);
        rest = rest / 10;
    }
    word
}

// A number in decimal, with no zeros in front.
fn decimal(n: u32) -> Two
    ensures { (packed result.first ++ packed result.second ≡ printed (width n) n) × (result.first < 1099511627776) }
{
    if n < MANY {
        return Two {
            first: 0,
            second: digits(n, 1),
        };
    }
    Two {
        first: digits(n / MANY, 1),
        second: digits(n % MANY, FEW),
    }
}

// The literal with these bits.
pub fn literal(bits: u32) -> Two
    ensures { packed result.first ++ packed result.second ≡ plain (signed32 bits) }
{
    let value = numbers::signed(bits);
    let two = decimal(value.unsigned_abs());
    if 0 <= value {
        return two;
    }
    Two {
        first: MINUS + 256 * two.first,
        second: two.second,
    }
}
