// What a turn records.
ghost use Rattle.std.specs.Prelude.{◌≡◌, ℕ};
ghost use Rattle.machine.specs.declared.Machine.{Machine};
ghost use Rattle.machine.specs.Turn.{nothing, store_record, applied};

use effects::Effect;
use events::Record;
use program::Variable;

// What a turn that records nothing has for a record.
fn nothing() -> Record
    ensures { result ≡ nothing }
{
    Record {
        kind: 0,
        number: 0,
        value: 0,
    }
}

// A store to an output is recorded by the output's number.
fn stored(v: u32, value: i32) -> Record
    ensures { result ≡ store_record v value }
{
    if (Variable::O1 <= v) & (v <= Variable::O3) {
        return Record {
            kind: Record::OUTPUT,
            number: v - Variable::O1 + 1,
            value,
        };
    }
    nothing()
}

// What a turn with this effect records.
pub fn recorded(does: Effect) -> Record
    ensures { (cells : ℕ) → (m : Machine) → result ≡ (applied cells does m).wrote }
{
    match does {
        Effect::Fails(error) => Record {
            kind: Record::FAILED,
            number: 0,
            value: error as i32,
        },
        Effect::Stores(v, value) => stored(v, value),
        Effect::Moves {
            target,
            kind,
            value,
        } => Record {
            kind,
            number: 0,
            value,
        },
        Effect::Slews(velocity) => Record {
            kind: Record::SLEWS,
            number: 0,
            value: velocity,
        },
        Effect::Prints(v, value) => Record {
            kind: Record::PRINTED,
            number: v,
            value,
        },
        _ => nothing(),
    }
}
