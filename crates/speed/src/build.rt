// The programs that are measured, and as many events as a run takes, byte by byte.
ghost use Rattle.std.specs.Prelude.{◌≤◌};

use comparing::Compared;
use events::records::write_record;
use events::script::SIZE;
use events::{Event, Record};
use std::array;

// The largest programs are made of blocks of fourteen lines: eight statements and six declarations. In a block # stands for its character, @ and
// % for those of blocks further on. Its ninth line is one of four, by the block's number. A variable counts up, an output is set, an input passes
// over the ninth line, a value is printed, and a jump goes back or on.
const BLOCK_SIZE: usize = 512;

const BLOCKS: usize = 32;

const BEFORE: usize = 292;

const NINTH: usize = 37;

const BLOCK: [u8; BLOCK_SIZE] = *b"VA X#=7 '..........................
LB G# '............................
IC X# '.............................
LB Y# '............................
R1=X#*3 '...........................
O1=X#&1 '...........................
LB K# '............................
BR Q#,IN>=8 '.......................
 '..................................
LB Q# '............................
PR X# '.............................
LB Z# '............................
BR G#,R1<30 '.......................
BR G@ '.............................
";

const NINTHS: [u8; NINTH * 4] = *b"X%=R1&255 '.........................
MR X# '.............................
R2=X#/3 '...........................
R3=X#^5 '...........................
";

pub const TEXT_SIZE: usize = BLOCK_SIZE * BLOCKS;

pub type Text = [u8; TEXT_SIZE];

// Where the statements of a block stand in it, and the declarations; how long each of these lines is, and all of them together.
const STATEMENTS: [usize; 8] = [72, 145, 182, 255, 292, 365, 438, 475];

const DECLARATIONS: [usize; 6] = [0, 36, 109, 219, 329, 402];

const DECLARATION: usize = 36;

const ALL_STATEMENTS: usize = 296;

const ALL_DECLARATIONS: usize = 216;

// A program that calls eight deep and returns, again and again.
pub const CALLS_SIZE: usize = 132;

pub const CALLS: [u8; CALLS_SIZE] = *b"LB GA
CL GB
BR GA
LB GB
CL GC
RT
LB GC
CL GD
RT
LB GD
CL GE
RT
LB GE
CL GF
RT
LB GF
CL GG
RT
LB GG
CL GH
RT
LB GH
CL GI
RT
LB GI
RT
";

// One event for each turn.
pub const TURNS: usize = 4096;

pub const EVENTS_SIZE: usize = SIZE * TURNS;

pub type Events = [u8; EVENTS_SIZE];

// The second character of a block's names. From E on none of them is a word of the drives, as QD would be.
fn character(block: usize) -> u8 {
    let n = (block % BLOCKS) as u8;
    if n < 22 { b'E' + n } else { b'0' + (n - 22) }
}

// A byte of one of so many blocks, with the character that it stands for.
fn filled(b: u8, block: usize, blocks: usize) -> u8 {
    match b {
        b'#' => character(block),
        b'@' => character(further(block, 13, blocks)),
        b'%' => character(further(block, 11, blocks)),
        _ => b,
    }
}

// The block so many further on, from the front again behind the last.
fn further(block: usize, count: usize, blocks: usize) -> usize {
    if blocks == 0 {
        return 0;
    }
    (block % BLOCKS + count % BLOCKS) % blocks
}

// A byte of each table; one function indexes it, once.
fn of_block(i: usize) -> u8 {
    BLOCK[i % BLOCK_SIZE]
}

fn of_ninth(kind: usize, i: usize) -> u8 {
    NINTHS[kind % 4 * NINTH + i % NINTH]
}

fn statement_start(k: usize) -> usize {
    STATEMENTS[k % 8]
}

fn declaration_start(k: usize) -> usize {
    DECLARATIONS[k % 6]
}

fn letter(block: usize, blocks: usize, i: usize) -> u8 {
    let is_ninth = (BEFORE <= i) & (i < BEFORE + NINTH);
    let b = if is_ninth {
        of_ninth(block, i - BEFORE)
    } else {
        of_block(i)
    };
    filled(b, block, blocks)
}

// The largest program.
pub fn text() -> Text {
    array::from_fn(|at| letter(at / BLOCK_SIZE, BLOCKS, at % BLOCK_SIZE))
}

// A byte of the statements of so many blocks, or of the declarations behind them.
fn late_letter(blocks: usize, at: usize) -> u8 {
    let statements = ALL_STATEMENTS * (blocks % (BLOCKS + 1));
    if at < statements {
        let i = at % ALL_STATEMENTS;
        let start = statement_start(i / NINTH);
        return letter(at / ALL_STATEMENTS, blocks, start % BLOCK_SIZE + i % NINTH);
    }
    let i = (at - statements) % ALL_DECLARATIONS;
    let start = declaration_start(i / DECLARATION);
    letter(
        (at - statements) / ALL_DECLARATIONS,
        blocks,
        start % BLOCK_SIZE + i % DECLARATION,
    )
}

// A program of so many bytes that declares its names behind all of its statements.
pub fn late_text(size: usize) -> Text {
    array::from_fn(|at| late_letter(size / BLOCK_SIZE, at))
}

// The event of a turn.
fn event(turn: usize) -> Record {
    match turn % 16 {
        7 => Record {
            kind: Event::ARRIVAL,
            number: 0,
            value: 0,
        },
        15 => Record {
            kind: Event::PLACE,
            number: 0,
            value: (turn % TURNS * 3) as i32,
        },
        _ => Record {
            kind: Event::INPUT,
            number: (1 + turn % 4) as u32,
            value: (turn / 16 % 2) as i32,
        },
    }
}

pub fn events() -> Events {
    let mut events = [0u8; EVENTS_SIZE];
    for turn in 0..TURNS {
        write_record(&mut events, SIZE * turn, turn as u32, event(turn));
    }
    events
}

// As many records as there may be.
pub type Records = [u8; RECORDS_SIZE];

const RECORDS_SIZE: usize = SIZE * Compared::MOST;

// 1 where a test holds, and else 0.
fn one_if(test: bool) -> usize
    ensures { result ≤ 1 }
{
    usize::from(test)
}

// The turn of a record of one of two runs, and the record; the second has another turn, kind, number or value in five of eight.
fn record(k: usize, other: bool) -> (u32, Record) {
    let turn = k % Compared::MOST + one_if(other & (k % 8 == 1));
    let kind = 1 + k % 6 + one_if(other & (k % 8 == 2));
    let number = k % 4 + one_if(other & (k % 8 == 3));
    let value = k % Compared::MOST * 3 + one_if(other & (k % 4 == 0));
    let record = Record {
        kind: kind as u8,
        number: number as u32,
        value: value as i32,
    };
    (turn as u32, record)
}

pub fn records(other: bool) -> Records {
    let mut records = [0u8; RECORDS_SIZE];
    for k in 0..Compared::MOST {
        let (turn, record) = record(k, other);
        write_record(&mut records, SIZE * k, turn, record);
    }
    records
}
