// The events of a script, and the bad ones.
ghost use Rattle.std.specs.Prelude.{◌≡◌, ◌&&◌, ◌+◌, ◌*◌, ◌≤◌, ◌<◌, eqb, leb, pos, length};
ghost use Rattle.numbers.specs.Bytes.{field};
ghost use Rattle.numbers.specs.Tests.{between, eq_z};
ghost use Rattle.program.specs.Variables.{in_range, literals};
ghost use Rattle.events.specs.Events.{event_at, event_count, good_event, bad_script, bad_event, first_bad_event};

use crate::Event;
use program::Variable;

// An event takes this many bytes, and so does a record: its turn, its kind, its number, two zeros, and its value.
pub const SIZE: usize = 12;

pub const KIND: usize = 4;

pub const NUMBER: usize = 5;

pub const ZEROS: usize = 6;

pub const VALUE: usize = 8;

impl Event {
    // The kinds: an input takes a value, a move arrives, the axis is at a place.
    // Stays: bytes of an event, by `good_event` (specs/Events.antt).
    pub const INPUT: u8 = 1;

    pub const ARRIVAL: u8 = 2;

    pub const PLACE: u8 = 3;

    // How many inputs there are.
    pub const INPUTS: u8 = 4;

    // The most events of a script.
    pub const MOST: usize = 4096;

    // An input by its number, and a value in its range, which neither VI nor VM has a say in.
    fn is_input(self) -> bool
        ensures { result ≡ (eqb self.kind 1 && ((leb 1 self.number && leb self.number 4) && between (pos 0) (pos 1) self.value)) }
    {
        let value = self.value;
        let fits = Variable(Variable::I1).range(0, 0).holds(i64::from(value));
        (self.kind == Self::INPUT) & (((1 <= self.number) & (self.number <= Self::INPUTS)) & fits)
    }

    // A move arrives: the event has neither number nor value.
    fn is_arrival(self) -> bool
        ensures { result ≡ (eqb self.kind 2 && (eqb self.number 0 && eq_z self.value (pos 0))) }
    {
        let value = self.value;
        (self.kind == Self::ARRIVAL) & ((self.number == 0) & (value == 0))
    }

    // The axis is at a place: no number, and a value in the range of P.
    fn is_place(self) -> bool
        ensures { result ≡ (eqb self.kind 3 && (eqb self.number 0 && in_range literals self.value)) }
    {
        let value = self.value;
        let known = Variable::literals().holds(i64::from(value));
        (self.kind == Self::PLACE) & ((self.number == 0) & known)
    }

    // An event of one of the kinds, with zeros where zeros stand.
    pub fn is_good(self) -> bool
        ensures { result ≡ good_event self }
    {
        (self.zeros == 0) & (self.is_input() | (self.is_arrival() | self.is_place()))
    }
}

// The event with this number, from 0.
pub fn event_at(s: &[u8], k: usize) -> Event
    requires { k ≤ 8192 }
    ensures { result ≡ event_at s.now k }
{
    let at = SIZE * k;
    Event {
        turn: numbers::read4(s, at),
        kind: s.get(at + KIND).copied().unwrap_or(0),
        number: s.get(at + NUMBER).copied().unwrap_or(0),
        zeros: numbers::read2(s, at + ZEROS),
        value: numbers::signed(numbers::read4(s, at + VALUE)),
    }
}

// The number in two bytes and in four that are there, the lowest first.
fn two(s: &[u8], from: usize) -> u16
    requires { from + 2 ≤ length s.now }
    ensures { result ≡ field 2 from s.now }
{
    u16::from_le_bytes([s[from], s[from + 1]])
}

fn four(s: &[u8], from: usize) -> u32
    requires { from + 4 ≤ length s.now }
    ensures { result ≡ field 4 from s.now }
{
    u32::from_le_bytes([s[from], s[from + 1], s[from + 2], s[from + 3]])
}

// The same of an event that is there: its bytes are read as they stand.
// Stays: tried `event_at(s, k)` in its place: a run takes 1.5 times as long, since each byte is then tested for the end (`speed run`).
pub fn whole_event(s: &[u8], k: usize) -> Event
    requires { (k < event_count s.now) × (event_count s.now ≤ 8192) }
    ensures { result ≡ event_at s.now k }
{
    let at = SIZE * k;
    Event {
        turn: four(s, at),
        kind: s[at + KIND],
        number: s[at + NUMBER],
        zeros: two(s, at + ZEROS),
        value: numbers::signed(four(s, at + VALUE)),
    }
}

// How many events the script has.
pub fn event_count(s: &[u8]) -> usize
    ensures { result ≡ event_count s.now }
{
    s.len() / SIZE
}

// Not in twelves, or too many events.
pub fn is_bad_script(s: &[u8]) -> bool
    ensures { result ≡ bad_script s.now }
{
    (s.len() % SIZE != 0) | (Event::MOST < s.len() / SIZE)
}

// A bad event, or one whose turn is below that of the one before.
// Stays: docs/PAPER.md names the contracts of this and of `first_bad_event`, and a type for a script of few events would ask more of a caller than bytes.
pub fn is_bad_event(s: &[u8], k: usize) -> bool
    requires { (k < event_count s.now) × (event_count s.now ≤ 4096) }
    ensures { result ≡ bad_event s.now k }
{
    let event = whole_event(s, k);
    if k == 0 {
        return !event.is_good();
    }
    let before = whole_event(s, k - 1);
    !event.is_good() | (event.turn < before.turn)
}

// The number of the first bad event; the number of events where none is bad.
// Stays: how many events there are, where none is bad, is the answer of `first_bad_event` (specs/Events.antt), and docs/PAPER.md names the contract.
pub fn first_bad_event(s: &[u8]) -> usize
    requires { event_count s.now ≤ 4096 }
    ensures { result ≡ first_bad_event s.now }
{
    let count = event_count(s);
    for k in 0..count {
        if is_bad_event(s, k) {
            return k;
        }
    }
    count
}
