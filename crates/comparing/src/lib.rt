// What two runs recorded, compared record by record.
#![tactic(auto)]

ghost use Rattle.std.specs.Prelude.{◌≡◌, cond, [], ◌+◌, ◌≤◌, ◌<◌, max, eqb, length};
ghost use Rattle.std.proofs.lemmas.List.Edits.{sets};
ghost use Rattle.events.specs.Events.{event_count};
ghost use Rattle.comparing.specs.Differences.{bad_record, bad_buffer, weight, field_sum, sum_at, differing, entry_bytes, differences};
ghost use Rattle.comparing.specs.Calls.{compare_answer, Compares};

use events::Event;
use events::script::{SIZE, event_count, whole_event};

// Number 0, and how many entries the list has; or the refusal.
// Stays: `Request4` (specs/Requests.antt) speaks of both fields of each answer, over any comparer; `list_entries` has the Result.
#[derive(Clone, Copy)]
pub struct Compared {
    pub number: u8,
    pub entries: usize,
}

impl Compared {
    // The most records of a buffer.
    pub const MOST: usize = 8192;
}

// An entry takes this many bytes: the number of a record, and the sum of what differs in it.
pub const ENTRY: usize = 8;

pub const SUM: usize = 4;

// What the sum is of; or which buffer alone has the record.
// Stays: bytes of a list: `field_sum` and `sum_at` (specs/Differences.antt) say the sum by these numbers.
pub const TURN: u32 = 1;

pub const KIND: u32 = 2;

pub const NUMBER: u32 = 4;

pub const VALUE: u32 = 8;

pub const FIRST_ONLY: u32 = 16;

pub const SECOND_ONLY: u32 = 32;

// Why a call is refused, by the number of its answer.
#[derive(Clone, Copy)]
enum Refusal {
    BadFirst = 51,
    BadSecond = 52,
    ShortList = 53,
}

// The number that tells of the first buffer.
pub const BAD_FIRST: u8 = Refusal::BadFirst as u8;

// A record with other bytes than zeros where these have to be.
fn is_bad_record(s: &[u8], k: usize) -> bool
    requires { (k < event_count s.now) × (event_count s.now ≤ 8192) }
    ensures { result ≡ bad_record s.now k }
{
    let record = whole_event(s, k);
    record.zeros != 0
}

// Too many records, not in twelves, or one of them is bad.
fn is_bad(s: &[u8]) -> bool
    ensures { result ≡ bad_buffer s.now }
{
    let count = event_count(s);
    if Compared::MOST < count {
        return true;
    }
    if s.len() % SIZE != 0 {
        return true;
    }
    (0..count).any(|k| is_bad_record(s, k))
}

// What a field adds to the sum.
fn weight(same: bool, w: u32) -> u32
    ensures { (result ≡ weight same w) × (result ≤ w) }
{
    if same { 0 } else { w }
}

// The sum of the fields that two records differ in.
fn field_sum(a: Event, b: Event) -> u32
    ensures { result ≡ field_sum a b }
{
    let turn = weight(a.turn == b.turn, TURN);
    let kind = weight(a.kind == b.kind, KIND);
    let number = weight(a.number == b.number, NUMBER);
    let value = weight(a.value == b.value, VALUE);
    turn + (kind + (number + value))
}

// The entry of a record number goes to the list, where it has one. The place behind it is handed back.
fn write_entry(list: &mut [u8], at: usize, k: u32, sum: u32) -> usize
    requires { at ≤ 65536 }
    ensures { (result ≡ at + weight (eqb sum 0) 8) × (list.new ≡ sets list.old at (cond (eqb sum 0) [] (entry_bytes k sum))) }
{
    if sum == 0 {
        return at;
    }
    numbers::write(list, at, ENTRY, numbers::eight_bytes(k, sum));
    at + ENTRY
}

// Two buffers of records, neither with more of them than a buffer may have.
#[derive(Clone, Copy)]
struct Sides<'a> {
    first: &'a [u8],
    second: &'a [u8],
    ghost short: { (event_count first.now ≤ 8192) × (event_count second.now ≤ 8192) },
}

impl Sides<'_> {
    // The sum of a record number.
    fn sum_at(self, k: usize) -> u32
        ensures { result ≡ sum_at self.entry.first.now self.entry.second.now k }
    {
        if event_count(self.second) <= k {
            return FIRST_ONLY;
        }
        if event_count(self.first) <= k {
            return SECOND_ONLY;
        }
        field_sum(whole_event(self.first, k), whole_event(self.second, k))
    }

    // How many record numbers there are: as many as the longer buffer has records.
    fn longer(self) -> usize
        ensures { result ≡ max (event_count self.entry.first.now) (event_count self.entry.second.now) }
    {
        event_count(self.first).max(event_count(self.second))
    }

    // How many entries the list has.
    fn count(self) -> usize
        ensures { (result ≡ length (differing self.entry.first.now self.entry.second.now)) × (result ≤ 8192) }
    {
        let end = self.longer();
        let mut entries = 0;
        for k in 0..end {
            entries += usize::from(self.sum_at(k) != 0);
        }
        entries
    }

    // Writes the list. What falls past the end of its buffer is not written.
    fn write(self, list: &mut [u8])
        ensures { list.new ≡ sets list.old 0 (differences self.entry.first.now self.entry.second.now) }
    {
        let end = self.longer();
        let mut at = 0;
        for k in 0..end {
            at = write_entry(list, at, k as u32, self.sum_at(k));
        }
    }
}

// How many entries go to the list, one for each number at which the records are not the same, or a buffer lacks one.
fn list_entries(first: &[u8], second: &[u8], list: &mut [u8]) -> Result<usize, Refusal>
    ensures { Compares first.now second.now list.old (compare_answer result) list.new }
{
    if is_bad(first) {
        return Err(Refusal::BadFirst);
    }
    if is_bad(second) {
        return Err(Refusal::BadSecond);
    }
    let sides = Sides { first, second };
    let entries = sides.count();
    if list.len() < ENTRY * entries {
        return Err(Refusal::ShortList);
    }
    sides.write(list);
    Ok(entries)
}

// Compares two record buffers: the list of what they differ in goes to its buffer.
pub fn compare(first: &[u8], second: &[u8], list: &mut [u8]) -> Compared
    ensures { Compares first.now second.now list.old result list.new }
{
    match list_entries(first, second, list) {
        Ok(entries) => Compared { number: 0, entries },
        Err(refusal) => Compared {
            number: refusal as u8,
            entries: 0,
        },
    }
}
