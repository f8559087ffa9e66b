// The run of an image, turn by turn.
#![tactic(auto)]

ghost use Rattle.std.specs.Prelude.{◌≡◌, false, ◌*◌, ◌-◌, ◌≤◌, length};
ghost use Rattle.image.specs.Layout.{start_values};
ghost use Rattle.machine.specs.Turn.{start_machine};
ghost use Rattle.events.specs.Events.{bad_script, bad_events, event_count};
ghost use Rattle.machine.specs.Code.{Inputs};
ghost use Rattle.running.specs.Courses.{image_course};
ghost use Rattle.running.specs.Visits.{image_visits};
ghost use Rattle.running.specs.Code.{reason_number, DueBefore, course_from, EndedAs, VisitedAs};

use events::records::write_record;
use events::script::{event_count, whole_event};
use machine::Machine;

// Why a run ends, with its number in an answer.
#[derive(Clone, Copy)]
pub enum EndReason {
    // No cell is left.
    PastTheLast = 1,
    // An error finds no place free for the handler's call.
    Stopped = 2,
    // No turn is left.
    BudgetUsed = 3,
}

impl EndReason {
    pub fn number(self) -> u8
        ensures { result ≡ reason_number self }
    {
        self as u8
    }
}

// How a run went: why it ended, after how many turns, with how many bytes of records, and in which state.
#[derive(Clone, Copy)]
pub struct Ended {
    pub reason: EndReason,
    pub turns: u32,
    pub bytes: usize,
    pub machine: Machine,
}

// The machine before the first turn, with the start values of the image.
fn started(image: &[u8]) -> Machine
    ensures { result ≡ start_machine (start_values image.now) }
{
    let count = image::variable_count(image);
    let mut machine = Machine::fresh();
    for k in 0..count {
        machine = machine.with_start(k, image::start_value(image, k));
    }
    machine
}

// The number of the first event that is not of this turn, from the event with this number on.
fn later(events: &[u8], turn: u32, first: usize) -> usize
    requires { (event_count events.now ≤ 4096) × (first ≤ event_count events.now) }
    ensures { DueBefore events.now turn first result }
{
    let count = event_count(events);
    for k in first..count {
        if whole_event(events, k).turn != turn {
            return k;
        }
    }
    count
}

// The run of an image from a machine on that stands before this turn, with the events from this number on to come, up to the last turn.
// Its records go to the buffer.
pub fn go_on(
    image: &[u8],
    events: &[u8],
    from: Machine,
    turn: u32,
    first: usize,
    last: u32,
    records: &mut [u8],
) -> Ended
    requires { (bad_script events.now ≡ false) × (bad_events events.now ≡ false) × (first ≤ event_count events.now) × Inputs from.variables × (12 * (last - turn) ≤ length records.old) }
    ensures { EndedAs (course_from image.now events.now from turn first last) result records.old records.new }
{
    let cells = image::cell_count(image);
    let mut machine = from;
    let mut turns = turn;
    let mut event = first;
    let mut bytes: usize = 0;
    // Stays: Forms 7 of document 01 (docs/PAPER.md): the loop of a run breaks with the reason, so it counts its turns itself.
    let reason = loop {
        if cells <= machine.next {
            break EndReason::PastTheLast;
        }
        if last <= turns {
            break EndReason::BudgetUsed;
        }
        let left = later(events, turns, event);
        let cell = image::cell_at(image, machine.next);
        let turned = machine.turn(cell, cells, events, event, left);
        machine = turned.machine;
        bytes = write_record(records, bytes, turns, turned.wrote);
        event = left;
        turns += 1;
        if turned.stops {
            break EndReason::Stopped;
        }
    };
    Ended {
        reason,
        turns,
        bytes,
        machine,
    }
}

// The run of an image from its start, against the events of a script and within a budget of turns. Its records go to the buffer.
pub fn course(image: &[u8], events: &[u8], budget: u32, records: &mut [u8]) -> Ended
    requires { (bad_script events.now ≡ false) × (bad_events events.now ≡ false) × (12 * budget ≤ length records.old) }
    ensures { EndedAs (image_course image.now events.now budget) result records.old records.new }
{
    go_on(image, events, started(image), 0, 0, budget, records)
}

// How many bytes a place takes among the places of a run.
pub const PLACE_BYTES: usize = 2;

// The places of an image's run: the machine's next cell at each turn, one behind the other to the front of the buffer. How many turns there were is handed back.
// Stays: its loop and that of `go_on` are no plainer as one: a turn is three calls in both, and one function for them would take six parameters and hand back two values.
pub fn visit(image: &[u8], events: &[u8], budget: u32, visits: &mut [u8]) -> usize
    requires { (bad_script events.now ≡ false) × (bad_events events.now ≡ false) × (2 * budget ≤ length visits.old) }
    ensures { VisitedAs (image_visits image.now events.now budget) result visits.old visits.new }
{
    let cells = image::cell_count(image);
    let mut machine = started(image);
    let mut event: usize = 0;
    for taken in 0..budget {
        if cells <= machine.next {
            return taken as usize;
        }
        let at = PLACE_BYTES * (taken as usize);
        numbers::write(visits, at, PLACE_BYTES, machine.next as u64);
        let rest = later(events, taken, event);
        let cell = image::cell_at(image, machine.next);
        let turned = machine.turn(cell, cells, events, event, rest);
        machine = turned.machine;
        event = rest;
        if turned.stops {
            return (taken as usize) + 1;
        }
    }
    budget as usize
}
