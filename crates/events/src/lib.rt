// Events and records, 12 bytes each: the events of a script, the bad ones, and what a turn records.
#![tactic(auto)]

pub mod records;
pub mod script;

// One event of a script.
// Stays: the kind is a byte of a script, and any may stand there: `good_event` and `bad_event` (specs/Events.antt) speak of each.
#[derive(Clone, Copy)]
pub struct Event {
    pub turn: u32,
    pub kind: u8,
    pub number: u8,
    pub zeros: u16,
    pub value: i32,
}

// What a turn records: kind 0 is nothing.
// Stays: the theorems `record_length` (proofs/Written.antt, `crates/rules/proofs/Never.antt`) speak of each kind, 0 too, and a move brings its own.
#[derive(Clone, Copy)]
pub struct Record {
    pub kind: u8,
    pub number: u32,
    pub value: i32,
}
