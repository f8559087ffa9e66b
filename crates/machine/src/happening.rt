// What the events of a turn do.
ghost use Rattle.std.specs.Prelude.{◌≡◌, true, false, ◌≤◌, pos};
ghost use Rattle.program.specs.Variables.{all_inputs};
ghost use Rattle.effects.specs.Effects.{read};
ghost use Rattle.events.specs.Events.{event_count, good_event, bad_events};
ghost use Rattle.machine.specs.Happens.{input};
ghost use Rattle.machine.specs.Code.{Bit, Inputs, Arrived, Happened, Acted};

use crate::Motion;
use acting::values::read;
use events::Event;
use events::script::whole_event;
use program::Variable;

// An input, which is 0 or 1, as a number without a sign.
fn bit(vars: &[i32], v: u32) -> u32
    requires { Bit (read vars.now v) }
    ensures { pos result ≡ read vars.now v }
{
    read(vars, v) as u32
}

// IN, by the four inputs.
fn all_inputs(vars: &[i32]) -> i32
    requires { Inputs vars.now }
    ensures { result ≡ all_inputs vars.now }
{
    let i1 = bit(vars, Variable::I1);
    let i2 = bit(vars, Variable::I2);
    let i3 = bit(vars, Variable::I3);
    let i4 = bit(vars, Variable::I4);
    (i1 + 2 * i2 + 4 * i3 + 8 * i4) as i32
}

// An input takes a value, and IN with it.
fn input(vars: &mut [i32; 64], number: u8, value: i32)
    requires { Inputs vars.old × ((1 ≤ number) × (number ≤ 4)) × Bit value }
    ensures { vars.new ≡ input number value vars.old }
{
    vars[(Variable::I1 as usize) + (number as usize) - 1] = value;
    let sum = all_inputs(vars);
    vars[Variable::IN as usize] = sum;
}

// Arrival: a move is over, and P is where it went; else nothing happens. The motion after it is handed back.
fn arrive(vars: &mut [i32; 64], motion: Motion) -> Motion
    ensures { Arrived vars.old motion vars.new result }
{
    match motion {
        Motion::Still => motion,
        Motion::To(target) => {
            vars[Variable::P as usize] = target;
            vars[Variable::MV as usize] = 0;
            Motion::Still
        }
        Motion::Slewing(_) => motion,
    }
}

// A good event happens to a machine with these variables and this motion, which are all that it can change. The motion after it is handed back.
// Stays: a struct of the variables and the motion is no plainer: a machine has both among its fields, so `Machine::turn` would build it and take it apart in each turn.
pub fn happen(vars: &mut [i32; 64], motion: Motion, event: Event) -> Motion
    requires { Inputs vars.old × (good_event event ≡ true) }
    ensures { Happened event vars.old motion vars.new result }
{
    if event.kind == Event::INPUT {
        input(vars, event.number, event.value);
        return motion;
    }
    if event.kind == Event::ARRIVAL {
        return arrive(vars, motion);
    }
    vars[Variable::P as usize] = event.value;
    motion
}

// The events act in order, from the one with the first number to the one before the last. The motion after them is handed back.
pub fn reach(
    vars: &mut [i32; 64],
    motion: Motion,
    events: &[u8],
    first: usize,
    last: usize,
) -> Motion
    requires { Inputs vars.old × (bad_events events.now ≡ false) × ((first ≤ last) × (last ≤ event_count events.now)) × (event_count events.now ≤ 4096) }
    ensures { Acted events.now first last vars.old motion vars.new result }
{
    let mut here = motion;
    for k in first..last {
        here = happen(vars, here, whole_event(events, k));
    }
    here
}
