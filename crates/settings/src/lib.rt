// Settings files: A, D, VI and VM of a drive, in two editions, read and written.
#![tactic(auto)]

ghost use Rattle.std.specs.Prelude.{◌≡◌, cond, ◌+◌, ◌≤◌, ℤ, is_some, length};
ghost use Rattle.std.specs.Option.{unwrap_or};
ghost use mathlib.Core.List.{flat_map};
ghost use Rattle.std.proofs.lemmas.List.Edits.{sets};
ghost use Rattle.numbers.specs.Tests.{any_of};
ghost use Rattle.program.specs.Variables.{in_range, range_of};
ghost use Rattle.settings.specs.Layout.{pairs_of, pair_bytes, file_of};
ghost use Rattle.settings.specs.Sets.{by_place, under, by_pairs, has, names_in, finished, all_in, fresh_settings};
ghost use Rattle.settings.specs.Calls.{shown_answer, shown_by, Reads, ReadsFirst, chosen_pair, chosen_pairs, outside, written_answer, Writes};

use program::Variable;

pub mod layout;

// The four values, by their names.
#[derive(Clone, Copy)]
pub struct Settings {
    pub a: i32,
    pub d: i32,
    pub vi: i32,
    pub vm: i32,
}

// Some of the four names.
// Stays: `Writes` and `Request5` (specs/) speak of the flags beside the values, and of a value whose flag is not set no clause speaks.
#[derive(Clone, Copy)]
pub struct Chosen {
    pub a: bool,
    pub d: bool,
    pub vi: bool,
    pub vm: bool,
}

// What a reader shows: the finished set, and the number 0; or what was given, and the refusal.
// Stays: `Request5` (specs/Requests.antt) speaks of both fields of each answer, over any reader; `read_up_to` has the Result.
#[derive(Clone, Copy)]
pub struct Shown {
    pub settings: Settings,
    pub number: u8,
}

// Number 0, and the length of the file that was written; or the refusal.
// Stays: `Request5` (specs/Requests.antt) speaks of both fields of each answer, over any writer; `write_file` has the Result.
#[derive(Clone, Copy)]
pub struct Written {
    pub length: usize,
    pub number: u8,
}

// Eight bytes of an edition 2 file: the number of a variable, zeros, a value.
#[derive(Clone, Copy)]
pub struct Pair {
    pub value: i32,
    pub number: u16,
    pub zeros: u16,
}

// The editions.
// Stays: two bytes of a file, in which any may stand: `edition` (specs/Layout.antt) reads them.
pub const BY_PLACE: u16 = 1;

pub const BY_PAIR: u16 = 2;

// The fewest and the most bytes of a file.
pub const SHORTEST: usize = 8;

pub const LONGEST: usize = 40;

// One more than VM can be: below it VI may have any velocity.
pub const OVER_VM: i32 = (Variable::HIGHEST_VELOCITY + 1) as i32;

// Why a call is refused, by the number of its answer.
#[derive(Clone, Copy)]
enum Refusal {
    BadLength = 41,
    UnknownEdition = 42,
    BadLayout = 43,
    OutOfRange = 44,
    ShortBuffer = 45,
}

// The number that tells of a value out of its range.
pub const OUT_OF_RANGE: u8 = Refusal::OutOfRange as u8;

impl Settings {
    // What a fresh state has.
    pub fn fresh() -> Settings
        ensures { result ≡ fresh_settings }
    {
        Settings {
            a: Variable::START_RATE,
            d: Variable::START_RATE,
            vi: Variable::START_VI,
            vm: Variable::START_VM,
        }
    }
}

// A value is in the range of its variable, where VI and VM stand at these.
// Stays: `vi` and `vm` come from a machine, from a file or from none (`OVER_VM`), and docs/PAPER.md names `Variable::range` with both.
fn is_within(v: u32, value: i32, vi: i32, vm: i32) -> bool
    ensures { result ≡ in_range (range_of v vi vm) value }
{
    Variable(v).range(vi, vm).holds(i64::from(value))
}

// All four values are in their ranges, where VI and VM stand at these.
fn are_within(g: Settings, vi: i32, vm: i32) -> bool
    ensures { result ≡ all_in g vi vm }
{
    let a = is_within(Variable::A, g.a, vi, vm);
    let d = is_within(Variable::D, g.d, vi, vm);
    let start = is_within(Variable::VI, g.vi, vi, vm);
    let top = is_within(Variable::VM, g.vm, vi, vm);
    (a & d) & (start & top)
}

// Four values by place, as edition 1 has them.
pub fn by_place(s: &[u8]) -> Settings
    ensures { result ≡ by_place s.now }
{
    Settings {
        a: layout::value_at(s, layout::A),
        d: layout::value_at(s, layout::D),
        vi: layout::value_at(s, layout::VI),
        vm: layout::value_at(s, layout::VM),
    }
}

// The value of the first pair with this number.
// Stays: a pair is read out of the bytes by its number (`pair_at`), and the last eight bytes are no pair: `chunks_exact` would bring those too.
fn under(s: &[u8], v: u32) -> Option<i32>
    ensures shown { (given : ℤ) → unwrap_or result given ≡ under v (pairs_of s.now) given }
    ensures found { is_some result ≡ has v (pairs_of s.now) }
{
    let count = layout::pair_count(s);
    for i in 0..count {
        let p = layout::pair_at(s, i);
        if p.is_of(v) {
            return Some(p.value);
        }
    }
    None
}

// The values of edition 2, by number. Names that are absent keep what was given.
fn by_pairs(s: &[u8], given: Settings) -> Settings
    ensures { result ≡ by_pairs (pairs_of s.now) given }
{
    Settings {
        a: under(s, Variable::A).unwrap_or(given.a),
        d: under(s, Variable::D).unwrap_or(given.d),
        vi: under(s, Variable::VI).unwrap_or(given.vi),
        vm: under(s, Variable::VM).unwrap_or(given.vm),
    }
}

// There is a pair with this number.
fn has(s: &[u8], v: u32) -> bool
    ensures { result ≡ has v (pairs_of s.now) }
{
    under(s, v).is_some()
}

// The names that a file of either edition has.
pub fn names_in(s: &[u8]) -> Chosen
    ensures { result ≡ names_in s.now }
{
    let all = layout::edition(s) == BY_PLACE;
    Chosen {
        a: all | has(s, Variable::A),
        d: all | has(s, Variable::D),
        vi: all | has(s, Variable::VI),
        vm: all | has(s, Variable::VM),
    }
}

// The given values with what a file of either edition has.
pub fn finished(s: &[u8], given: Settings) -> Settings
    ensures { result ≡ finished s.now given }
{
    if layout::edition(s) == BY_PLACE {
        return by_place(s);
    }
    by_pairs(s, given)
}

// Reads a file of the editions 1 to `last`: the finished set.
fn read_up_to(last: u16, s: &[u8], given: Settings) -> Result<Settings, Refusal>
    ensures { shown_answer given result ≡ shown_by last s.now given }
{
    if (s.len() < SHORTEST) | (LONGEST < s.len()) {
        return Err(Refusal::BadLength);
    }
    let edition = layout::edition(s);
    if !((BY_PLACE <= edition) & (edition <= last)) {
        return Err(Refusal::UnknownEdition);
    }
    if !layout::is_laid_out(s) {
        return Err(Refusal::BadLayout);
    }
    let settings = finished(s, given);
    if !are_within(settings, settings.vi, settings.vm) {
        return Err(Refusal::OutOfRange);
    }
    Ok(settings)
}

// The answer of a reader: what was given where the file is refused.
fn answered(read: Result<Settings, Refusal>, given: Settings) -> Shown
    ensures { result ≡ shown_answer given read }
{
    match read {
        Ok(settings) => Shown {
            settings,
            number: 0,
        },
        Err(refusal) => Shown {
            settings: given,
            number: refusal as u8,
        },
    }
}

// Reads a file of either edition, over the given values.
pub fn read(file: &[u8], given: Settings) -> Shown
    ensures { Reads file.now given result }
{
    answered(read_up_to(BY_PAIR, file, given), given)
}

// The reader of edition 1.
pub fn read_first(file: &[u8], given: Settings) -> Shown
    ensures { ReadsFirst file.now given result }
{
    answered(read_up_to(BY_PLACE, file, given), given)
}

// A name is chosen, and its variable can never have this value.
fn is_outside(chosen: bool, v: u32, value: i32) -> bool
    ensures { result ≡ any_of outside (chosen_pair chosen v value) }
{
    if !chosen {
        return false;
    }
    !is_within(v, value, 0, OVER_VM)
}

fn is_any_outside(g: Settings, which: Chosen) -> bool
    ensures { result ≡ any_of outside (chosen_pairs g which) }
{
    let a = is_outside(which.a, Variable::A, g.a);
    let d = is_outside(which.d, Variable::D, g.d);
    let vi = is_outside(which.vi, Variable::VI, g.vi);
    let vm = is_outside(which.vm, Variable::VM, g.vm);
    (a | d) | (vi | vm)
}

// The bytes that a name takes in a file.
fn size(chosen: bool) -> usize
    ensures { (result ≡ cond chosen 8 0) × (result ≤ 8) }
{
    if chosen { layout::PAIR } else { 0 }
}

// The bytes of a file of the chosen names.
fn file_size(which: Chosen) -> usize
    ensures { ((g : Settings) → result ≡ length (file_of (chosen_pairs g which))) × (result ≤ 40) }
{
    ((size(which.a) + size(which.d)) + (size(which.vi) + size(which.vm))) + layout::TRAILER
}

// The pair of a name goes to the file, if it is chosen. The place behind it is handed back.
fn write_pair(file: &mut [u8], at: usize, chosen: bool, v: u32, value: i32) -> usize
    requires { (at ≤ 65535) × (v ≤ 65535) }
    ensures { (result ≡ at + cond chosen 8 0) × (result ≤ at + 8) × (file.new ≡ sets file.old at (flat_map pair_bytes (chosen_pair chosen v value))) }
{
    if !chosen {
        return at;
    }
    numbers::write(
        file,
        at,
        layout::PAIR,
        numbers::eight_bytes(v, numbers::digits(value)),
    );
    at + layout::PAIR
}

// The pairs of the chosen names go to the front of the file. What falls past its end is not written.
fn write_pairs(file: &mut [u8], g: Settings, which: Chosen) -> usize
    ensures { (result ≡ length (flat_map pair_bytes (chosen_pairs g which))) × (result ≤ 32) × (file.new ≡ sets file.old 0 (flat_map pair_bytes (chosen_pairs g which))) }
{
    let d = write_pair(file, 0, which.a, Variable::A, g.a);
    let vi = write_pair(file, d, which.d, Variable::D, g.d);
    let vm = write_pair(file, vi, which.vi, Variable::VI, g.vi);
    write_pair(file, vm, which.vm, Variable::VM, g.vm)
}

// Writes an edition 2 file of the chosen names: its length.
fn write_file(settings: Settings, which: Chosen, file: &mut [u8]) -> Result<usize, Refusal>
    ensures { Writes settings which file.old (written_answer result) file.new }
{
    if is_any_outside(settings, which) {
        return Err(Refusal::OutOfRange);
    }
    let length = file_size(which);
    if file.len() < length {
        return Err(Refusal::ShortBuffer);
    }
    let at = write_pairs(file, settings, which);
    numbers::write(
        file,
        at,
        layout::TRAILER,
        layout::trailer(BY_PAIR, length as u16),
    );
    Ok(length)
}

// Writes an edition 2 file of the chosen names.
pub fn write(settings: Settings, which: Chosen, file: &mut [u8]) -> Written
    ensures { Writes settings which file.old result file.new }
{
    match write_file(settings, which, file) {
        Ok(length) => Written { length, number: 0 },
        Err(refusal) => Written {
            length: 0,
            number: refusal as u8,
        },
    }
}
