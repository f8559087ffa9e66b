// One turn: the effect of the statement, applied to the machine, and EF cleared where the statement reads ER.
ghost use Rattle.std.specs.Prelude.{◌≡◌, false, List, ℕ, ◌-◌, ◌≤◌, ◌<◌, ℤ, pos, set};
ghost use Rattle.effects.specs.declared.Effect.TheVariants.{Fails};
ghost use Rattle.acting.specs.Code.{clears_by};
ghost use Rattle.machine.specs.Turn.{at, onward, stored, moving_bit, in_motion, slew, called, handled, returned, armed, held, failed, applied, clearing};
ghost use Rattle.events.specs.Events.{bad_events, event_count};
ghost use Rattle.machine.specs.Code.{Inputs, Ready, acts, changed, joined, whole, turn_by};

use crate::happening::reach;
use crate::recording::recorded;
use crate::{Control, Machine, Motion, Place, Places, Turned};
use acting::clearing::clears;
use acting::doing::effect;
use effects::Effect;
use events::Record;
use program::{Cell, Variable};

impl Motion {
    // At velocity 0 the axis is still.
    fn slew(velocity: i32) -> Motion
        ensures { result ≡ slew velocity }
    {
        let is_still = velocity == 0;
        if is_still {
            return Motion::Still;
        }
        Motion::Slewing(velocity)
    }

    // MV: 1 while the axis moves.
    fn bit(self) -> i32
        ensures { result ≡ moving_bit self }
    {
        match self {
            Motion::Still => 0,
            Motion::To(_) => 1,
            Motion::Slewing(_) => 1,
        }
    }
}

// A store, which clears EF where it goes to ER.
fn store(vars: &mut [i32; 64], v: u32, value: i32)
    ensures { vars.new ≡ stored vars.old v value }
{
    if Machine::VARIABLES <= v {
        return;
    }
    vars[v as usize] = value;
    if v == Variable::ER {
        vars[Variable::EF as usize] = 0;
        return;
    }
}

// ER becomes the error, EF becomes 1.
fn flag(vars: &mut [i32; 64], error: u8)
    ensures { vars.new ≡ set (set vars.old 10 (pos error)) 15 (pos 1) }
{
    vars[Variable::ER as usize] = error as i32;
    vars[Variable::EF as usize] = 1;
}

// MV follows the motion.
fn set_moving(vars: &mut [i32; 64], motion: Motion)
    ensures { vars.new ≡ set vars.old 14 (moving_bit motion) }
{
    vars[Variable::MV as usize] = motion.bit();
}

// What an effect does to the variables.
fn apply(vars: &mut [i32; 64], does: Effect)
    ensures { vars.new ≡ changed does vars.old }
{
    match does {
        Effect::Fails(error) => flag(vars, error),
        Effect::Stores(v, value) => store(vars, v, value),
        Effect::Moves {
            target,
            kind,
            value,
        } => set_moving(vars, Motion::To(target)),
        Effect::Slews(velocity) => set_moving(vars, Motion::slew(velocity)),
        _ => {}
    }
}

// The same, and behind it EF is cleared where the cell's statement clears it, with so many turns of a hold still to come. Where EF is 0, nothing need be asked.
fn change(vars: &mut [i32; 64], cell: Cell, hold: u32, does: Effect)
    ensures { vars.new ≡ clearing (clears_by cell hold does) (changed does vars.old) }
{
    apply(vars, does);
    let flag = Variable::EF as usize;
    if vars[flag] == 0 {
        return;
    }
    if clears(cell, hold, does) {
        vars[flag] = 0;
        return;
    }
}

// Stays: `self.next < 65535` in seven of these is no invariant of the type: `onward` and `held` hand back next + 1, and so 65535 from 65534.
impl Control {
    // A call keeps the following cell.
    fn called(mut self, cell: u16) -> Control
        requires { (self.next < 65535) × (self.places.kept < 8) }
        ensures { (vars : List ℤ) → joined vars result ≡ called cell (joined vars self) }
    {
        self.places = self.places.keep(Place::by_call(self.next + 1));
        self.next = cell;
        self
    }

    // The call of the handler keeps the following cell and the handler's target, and no handler is armed.
    fn handled(mut self) -> Control
        requires { (self.next < 65535) × (self.places.kept < 8) }
        ensures { (vars : List ℤ) → joined vars result ≡ handled (joined vars self) }
    {
        self.places = self
            .places
            .keep(Place::by_handler(self.next + 1, self.handler));
        self.next = self.handler;
        self.handler = Machine::NO_HANDLER;
        self
    }

    // A return goes to the place kept last, and arms the handler of a place that one kept.
    fn returned(mut self) -> Control
        requires { 0 < self.places.kept }
        ensures { (vars : List ℤ) → joined vars result ≡ returned (joined vars self) }
    {
        let places = self.places;
        self.places = places.release();
        let place = places.last_place();
        self.handler = place.rearmed(self.handler);
        self.next = place.cell;
        self
    }

    // The cell is left with the last turn of the hold.
    fn held(mut self, turns: u32) -> Control
        requires { self.next < 65535 }
        ensures { (vars : List ℤ) → joined vars result ≡ held turns (joined vars self) }
    {
        self.hold = turns;
        let is_held = 0 < turns;
        if is_held {
            return self;
        }
        self.next += 1;
        self
    }

    // OE: the handler is this cell, or none, and every kept place is one that CL kept.
    fn armed(mut self, cell: u16) -> Control
        ensures { (vars : List ℤ) → joined vars result ≡ armed cell (joined vars self) }
    {
        self.places = self.places.calls_only();
        self.handler = cell;
        self
    }

    // The machine is at this cell.
    fn at(mut self, cell: u16) -> Control
        ensures { (vars : List ℤ) → joined vars result ≡ at cell (joined vars self) }
    {
        self.next = cell;
        self
    }

    // The machine is at the following cell.
    fn onward(self) -> Control
        requires { self.next < 65535 }
        ensures { (vars : List ℤ) → joined vars result ≡ onward (joined vars self) }
    {
        self.at(self.next + 1)
    }

    // An error: on to the next cell, or to the handler; with no place free for that the run stops, and all stays.
    fn failed(self) -> Control
        requires { self.next < 65535 }
        ensures { (error : ℕ) → (vars : List ℤ) → joined (changed (Fails error) vars) result ≡ (failed error (joined vars self)).machine }
    {
        if self.handler == Machine::NO_HANDLER {
            return self.onward();
        }
        if self.places.kept < Places::MOST {
            return self.handled();
        }
        self
    }

    // The axis moves.
    fn moved(mut self, motion: Motion) -> Control
        requires { self.next < 65535 }
        ensures { (vars : List ℤ) → joined (set vars 14 (moving_bit motion)) result ≡ onward (in_motion motion (joined vars self)) }
    {
        self.motion = motion;
        self.onward()
    }

    // What an effect comes to besides the variables, in a program with so many cells.
    fn after(self, does: Effect, cells: u16) -> Control
        requires { (self.next < 65535) × Ready self.places.kept does }
        ensures { (vars : List ℤ) → joined (changed does vars) result ≡ (applied cells does (joined vars self)).machine }
    {
        match does {
            Effect::Fails(_) => self.failed(),
            Effect::Goes(place) => self.at(place),
            Effect::Calls(place) => self.called(place),
            Effect::Returns => self.returned(),
            Effect::Ends => self.at(cells),
            Effect::Stays => self,
            Effect::Holds(turns) => self.held(turns),
            Effect::Arms(handler) => self.armed(handler).onward(),
            Effect::Disarms => self.armed(Machine::NO_HANDLER).onward(),
            Effect::Moves {
                target,
                kind,
                value,
            } => self.moved(Motion::To(target)),
            Effect::Slews(velocity) => self.moved(Motion::slew(velocity)),
            _ => self.onward(),
        }
    }

    // Whether the run stops: an error finds no place free for the call of the handler.
    fn stops(self, does: Effect) -> bool
        ensures { (cells : ℕ) → (vars : List ℤ) → result ≡ (applied cells does (joined vars self)).stops }
    {
        match does {
            Effect::Fails(_) => (self.handler != Machine::NO_HANDLER)
                & (Places::MOST <= self.places.kept),
            _ => false,
        }
    }

    // What the turn came to, with the variables, the record, and whether the run stops.
    fn turned(self, variables: [i32; 64], wrote: Record, stops: bool) -> Turned
        ensures { result ≡ whole variables self wrote stops }
    {
        Turned {
            machine: Machine {
                variables,
                next: self.next,
                places: self.places,
                handler: self.handler,
                hold: self.hold,
                motion: self.motion,
            },
            wrote,
            stops,
        }
    }
}

impl Machine {
    // The numbers of variables are below this.
    pub const VARIABLES: u32 = 64;

    // The handler of a machine that has none: no cell has this number.
    // Stays: `no_handler` (specs/Turn.antt) is this number.
    pub const NO_HANDLER: u16 = 65535;

    // The next state, and what the turn records, of a program with so many cells: the events act, from the one with the first number to the one before
    // the last, then the statement.
    // Stays: docs/PAPER.md names `Machine::turn`, `reach`, `later`, `go_on`, `course` and `visit`, so they take events as bytes, and each says itself that they are good and few.
    pub fn turn(self, cell: Cell, cells: u16, events: &[u8], first: usize, last: usize) -> Turned
        requires { (self.next < 65535) × Inputs self.variables × (bad_events events.now ≡ false) × ((first ≤ last) × (last ≤ event_count events.now)) × (event_count events.now ≤ 4096) }
        ensures { result ≡ turn_by cells cell (acts events.now first (last - first) self) }
    {
        let mut variables = self.variables;
        let motion = reach(&mut variables, self.motion, events, first, last);
        let does = effect(cell, &variables, self.places.kept, self.hold);
        change(&mut variables, cell, self.hold, does);
        let before = Control {
            next: self.next,
            places: self.places,
            handler: self.handler,
            hold: self.hold,
            motion,
        };
        let wrote = recorded(does);
        let stops = before.stops(does);
        before.after(does, cells).turned(variables, wrote, stops)
    }
}
