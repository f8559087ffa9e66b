// What a turn records, as bytes.
ghost use Rattle.std.specs.Prelude.{◌≡◌, ◌+◌, ◌≤◌, length};
ghost use Rattle.std.proofs.lemmas.List.Edits.{sets};
ghost use Rattle.events.specs.Events.{record_bytes};

use crate::Record;
use crate::script::{KIND, NUMBER, SIZE, VALUE, ZEROS};

impl Record {
    // The kinds: an output was written, the axis slews, a value was printed, an error came. Those of a move come with its effect.
    // Stays: bytes of a record, by `record_bytes` (specs/Events.antt).
    pub const OUTPUT: u8 = 1;

    pub const SLEWS: u8 = 4;

    pub const PRINTED: u8 = 5;

    pub const FAILED: u8 = 6;
}

// The record of a turn goes to the buffer, if there is one. The place after it is handed back.
pub fn write_record(b: &mut [u8], at: usize, turn: u32, r: Record) -> usize
    requires { at + 12 ≤ length b.old }
    ensures { (result ≡ at + length (record_bytes turn r)) × (b.new ≡ sets b.old at (record_bytes turn r)) }
{
    if r.kind == 0 {
        return at;
    }
    numbers::write(b, at, 4, u64::from(turn));
    numbers::write(b, at + KIND, 1, u64::from(r.kind));
    numbers::write(b, at + NUMBER, 1, u64::from(r.number));
    numbers::write(b, at + ZEROS, 2, 0);
    numbers::write(b, at + VALUE, 4, u64::from(numbers::digits(r.value)));
    at + SIZE
}
