// How the bytes of a settings file are laid out.
ghost use Rattle.std.specs.Prelude.{◌≡◌, ◌&&◌, ◌+◌, ◌-◌, ◌/◌, ◌≤◌, ◌<◌, eqb, ltb, length};
ghost use Rattle.numbers.specs.Bytes.{bytes};
ghost use Rattle.settings.specs.Layout.{trailer, has_trailer, edition_of, value_at, pair_at, pairs_of, good_pair, good_pairs, laid_out};

use crate::{BY_PLACE, Pair};
use program::Variable;

// The places of the four values in edition 1.
pub const A: usize = 0;

pub const D: usize = 4;

pub const VI: usize = 8;

pub const VM: usize = 12;

// The bytes of an edition 1 file, of a pair and of the trailer; where in a pair its zeros and its value stand, and how far from the end the edition.
const FIRST_SIZE: usize = 24;

pub const PAIR: usize = 8;

const ZEROS: usize = 2;

const VALUE: usize = 4;

pub const TRAILER: usize = 8;

const EDITION: usize = 4;

// The place so many bytes from the end; 0 where there are fewer.
fn from_end(s: &[u8], n: usize) -> usize
    ensures { result ≡ length s.now - n }
{
    s.len().saturating_sub(n)
}

// The edition that a file says it has.
pub fn edition(s: &[u8]) -> u16
    ensures { result ≡ edition_of s.now }
{
    numbers::read2(s, from_end(s, EDITION))
}

// The number whose eight bytes are a trailer.
pub fn trailer(edition: u16, whole: u16) -> u64
    ensures { bytes 8 result ≡ trailer edition whole }
{
    numbers::eight_bytes(0, u32::from(edition) + 65536 * u32::from(whole))
}

// The trailer of this edition and of the file's length stands at a place.
pub fn has_trailer(s: &[u8], at: usize, edition: u16) -> bool
    requires { (at + 8 ≤ length s.now) × (length s.now ≤ 65535) }
    ensures { result ≡ has_trailer s.now at edition }
{
    numbers::read(s, at, TRAILER) == trailer(edition, s.len() as u16)
}

pub fn value_at(s: &[u8], at: usize) -> i32
    ensures { result ≡ value_at s.now at }
{
    numbers::signed(numbers::read4(s, at))
}

// The pair with this number, from 0.
pub fn pair_at(s: &[u8], i: usize) -> Pair
    requires { i < length s.now / 8 }
    ensures { result ≡ pair_at s.now i }
{
    let at = PAIR * i;
    Pair {
        value: value_at(s, at + VALUE),
        number: numbers::read2(s, at),
        zeros: numbers::read2(s, at + ZEROS),
    }
}

// How many pairs stand in front of the trailer.
pub fn pair_count(s: &[u8]) -> usize
    ensures { result ≡ length s.now / 8 - 1 }
{
    (s.len() / PAIR).saturating_sub(1)
}

impl Pair {
    // Of A, D, VI or VM, with zeros where zeros stand.
    pub fn is_good(self) -> bool
        ensures { result ≡ good_pair self }
    {
        let v = u32::from(self.number);
        ((Variable::A <= v) & (v <= Variable::VM)) & (self.zeros == 0)
    }

    // Of this variable.
    pub fn is_of(self, v: u32) -> bool
        ensures { result ≡ eqb self.number v }
    {
        u32::from(self.number) == v
    }

    // Good, and its number above the last one.
    pub fn is_next(self, last: u16) -> bool
        ensures { result ≡ (good_pair self && ltb last self.number) }
    {
        self.is_good() & (last < self.number)
    }
}

// All pairs are good, and their numbers rise.
fn are_good(s: &[u8]) -> bool
    ensures { result ≡ good_pairs 0 (pairs_of s.now) }
{
    let count = pair_count(s);
    let mut last = 0;
    for i in 0..count {
        let p = pair_at(s, i);
        if !p.is_next(last) {
            return false;
        }
        last = p.number;
    }
    true
}

// As its edition has it, with its trailer at the end.
pub fn is_laid_out(s: &[u8]) -> bool
    requires { (8 ≤ length s.now) × (length s.now ≤ 65535) }
    ensures { result ≡ (has_trailer s.now (length s.now - 8) (edition_of s.now) && laid_out s.now) }
{
    let edition = edition(s);
    if !has_trailer(s, s.len() - TRAILER, edition) {
        return false;
    }
    if edition == BY_PLACE {
        return s.len() == FIRST_SIZE;
    }
    (s.len() % PAIR == 0) & are_good(s)
}
