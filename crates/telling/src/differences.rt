// What differs between the records of two runs, side by side.
use crate::{given, trace};
use parts::Line;
use words::{Kind, Part};

// The columns: numbers of records, turns and records, and what stands between two of them.
const NUMBER_WIDTH: usize = 7;

const TURN_WIDTH: usize = 5;

const RECORD_WIDTH: usize = 22;

const GAP: usize = 2;

// Where the columns of the second run begin, and that of what differs, each with its gap.
const SECOND_COLUMN: usize = NUMBER_WIDTH + GAP + TURN_WIDTH + GAP + RECORD_WIDTH;

const LAST_COLUMN: usize = SECOND_COLUMN + GAP + TURN_WIDTH + GAP + RECORD_WIDTH;

// The fields of a record, in the order in which they are told.
const FIELDS: [u32; 4] = [
    comparing::TURN,
    comparing::KIND,
    comparing::NUMBER,
    comparing::VALUE,
];

// One of two runs: its records, and the image that names what they are of, or an empty one.
#[derive(Clone, Copy)]
pub struct Side<'a> {
    pub records: &'a [u8],
    pub image: &'a [u8],
}

// An entry of a list: the number of a record, and the sum of what differs in it.
// Stays: a sum, as the list has it (`entry_bytes` in comparing/specs), from which each field that differs is one test.
#[derive(Clone, Copy)]
pub struct Entry {
    pub number: usize,
    pub sum: u32,
}

impl Side<'_> {
    // How many records a run has.
    fn count(self) -> usize {
        events::script::event_count(self.records)
    }

    // A record with its turn.
    fn record(self, line: Line, number: usize) -> Line {
        let record = given::entry(self.records, number);
        let line = line.spaces(GAP).number_to(record.turn as u64, TURN_WIDTH);
        trace::short(line.spaces(GAP), self.image, record)
    }
}

impl Entry {
    // An entry by its bytes.
    pub fn read(bytes: &[u8]) -> Entry {
        Entry {
            number: numbers::read4(bytes, 0) as usize,
            sum: numbers::read4(bytes, comparing::SUM),
        }
    }

    // What differs: which run alone has the record, or the fields, with a comma between two of them.
    fn told(self, line: Line) -> Line {
        match self.sum {
            comparing::FIRST_ONLY | comparing::SECOND_ONLY => {
                crate::meaning(line, Kind::Difference, self.sum)
            }
            _ => self.fields(line),
        }
    }

    fn fields(self, mut line: Line) -> Line {
        let mut comma: &[u8] = b"";
        for field in FIELDS {
            if self.sum & field != 0 {
                line = crate::meaning(line.bytes(comma), Kind::Difference, field);
                comma = b", ";
            }
        }
        line
    }

    // The row of the entry, with the record of each run that has it.
    pub fn row(self, first: Side<'_>, second: Side<'_>) -> Line {
        let mut line = Line::empty().number_to(self.number as u64, NUMBER_WIDTH);
        if self.sum != comparing::SECOND_ONLY {
            line = first.record(line, self.number);
        }
        line = crate::filled(line, SECOND_COLUMN);
        if self.sum != comparing::FIRST_ONLY {
            line = second.record(line, self.number);
        }
        line = crate::filled(line, LAST_COLUMN).spaces(GAP);
        self.told(line).end()
    }
}

// Above the rows, where there are any.
pub fn header(entries: usize) -> Line {
    if entries == 0 {
        return Line::empty();
    }
    crate::part(Line::empty(), Part::Compared).end()
}

// How many records there are, and how many record numbers are listed.
pub fn counted(first: Side<'_>, second: Side<'_>, entries: usize) -> Line {
    let line = crate::part_number(Line::empty(), Part::Records, first.count() as u64);
    if entries == 0 {
        return crate::part(line, Part::Equal).end();
    }
    let line = crate::part_number(line, Part::And, second.count() as u64);
    crate::part_number(line, Part::Different, entries as u64).end()
}
