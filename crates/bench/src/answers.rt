// The parts of the answers: a state, and the refusals.
ghost use Rattle.std.specs.Prelude.{◌≡◌, map};
ghost use Rattle.bench.specs.Answers.{state_place_of, no_place, state_of, no_state, refused_as, motion_number, motion_value};
ghost use Rattle.bench.specs.Running.{number_of, index_of};
ghost use Rattle.bench.specs.Translating.{answered};
ghost use Rattle.bench.specs.Listings.{list_answered};

use crate::{Listed, Ran, Refusal, State, StatePlace, Translated};
use machine::{Machine, Motion, Place, Places};

// The refusals of a text that are not those of a line.
// Stays: the new form is no plainer: each of these three is told at one place, and an enum of three would be these names and a match to these numbers.
pub const LONG_TEXT: u8 = 1;

pub const SHORT_BUFFER: u8 = 10;

// The most bytes that a text may have.
pub const LONGEST_TEXT: usize = 16384;

// The refusal of a listing, behind those of its image.
pub const SHORT_TEXT: u8 = 11;

// The refusals of a run, behind those of its image.
// Stays: `number_of` (specs/Running.antt) says these numbers of the cases of `Refusal`, and the edit `big_budget_told_as_35` turns one.
const BAD_SCRIPT: u8 = 32;

const BAD_EVENT: u8 = 33;

const BIG_BUDGET: u8 = 34;

const SMALL_ROOM: u8 = 35;

// The bytes of a record.
pub const RECORD: usize = 12;

// A text that is refused: the number, the line, and no image.
pub fn not_translated(number: u8, line: usize) -> Translated
    ensures { result ≡ answered number line 0 }
{
    Translated {
        number,
        line,
        length: 0,
    }
}

// A listing that is refused: the number, and no text.
pub fn not_listed(number: u8) -> Listed
    ensures { result ≡ list_answered number 0 }
{
    Listed { number, length: 0 }
}

impl Refusal {
    // Its number, and the index beside it.
    fn number(self) -> u8
        ensures { result ≡ number_of self }
    {
        match self {
            Refusal::Image(refusal) => refusal.number(),
            Refusal::BadScript => BAD_SCRIPT,
            Refusal::BadEvent(_) => BAD_EVENT,
            Refusal::BigBudget => BIG_BUDGET,
            Refusal::SmallRoom => SMALL_ROOM,
        }
    }

    fn index(self) -> usize
        ensures { result ≡ index_of self }
    {
        match self {
            Refusal::BadEvent(index) => index,
            _ => 0,
        }
    }
}

// A motion in an answer.
// Stays: Forms 13 of document 01: `motion_number` (specs/Answers.antt) says these numbers of the cases of `Motion`.
const STILL: u8 = 0;

const TO: u8 = 1;

const SLEWING: u8 = 2;

fn motion_number(motion: Motion) -> u8
    ensures { result ≡ motion_number motion }
{
    match motion {
        Motion::Still => STILL,
        Motion::To(_) => TO,
        Motion::Slewing(_) => SLEWING,
    }
}

fn motion_value(motion: Motion) -> i32
    ensures { result ≡ motion_value motion }
{
    match motion {
        Motion::Still => 0,
        Motion::To(target) => target,
        Motion::Slewing(velocity) => velocity,
    }
}

// The mark of a return place in an answer, by `state_place_of` (specs/Answers.antt).
// Stays: `state_place_of` (specs/Answers.antt) says these two numbers, and the edit `mark_off_by_one` turns one.
const BY_CALL: u8 = 0;

const BY_HANDLER: u8 = 1;

fn place_of(place: Place) -> StatePlace
    ensures { result ≡ state_place_of place }
{
    if place.handler == Machine::NO_HANDLER {
        return StatePlace {
            cell: place.cell,
            target: 0,
            mark: BY_CALL,
        };
    }
    StatePlace {
        cell: place.cell,
        target: place.handler,
        mark: BY_HANDLER,
    }
}

// All eight return places. Not inlined: in a run the compiler would take a machine's places apart, since each is read here at a fixed place, and calls would take longer.
#[inline(never)]
fn places_of(places: Places) -> [StatePlace; 8]
    ensures { result ≡ map state_place_of places.all }
{
    places.all.map(place_of)
}

// Every part of a machine's state.
pub fn state_of(machine: Machine) -> State
    ensures { result ≡ state_of machine }
{
    let variables = machine.variables;
    let places = places_of(machine.places);
    State {
        variables,
        next: machine.next,
        places,
        kept: machine.places.kept,
        handler: machine.handler,
        hold: machine.hold,
        motion: motion_number(machine.motion),
        value: motion_value(machine.motion),
    }
}

fn no_place() -> StatePlace
    ensures { result ≡ no_place }
{
    StatePlace {
        cell: 0,
        target: 0,
        mark: BY_CALL,
    }
}

fn no_state() -> State
    ensures { result ≡ no_state }
{
    State {
        variables: [0i32; 64],
        next: 0,
        places: [no_place(); 8],
        kept: 0,
        handler: 0,
        hold: 0,
        motion: STILL,
        value: 0,
    }
}

// A refusal: its number, the index of a bad event, and all else 0.
pub fn refused(refusal: Refusal) -> Ran
    ensures { result ≡ refused_as (number_of refusal) (index_of refusal) }
{
    Ran {
        number: refusal.number(),
        index: refusal.index(),
        reason: 0,
        turns: 0,
        records: 0,
        state: no_state(),
    }
}
