// The bench's words: what each number of an answer means, what the tool says, and how it is used. Two tables of lines, and a text.
#![tactic(auto)]

ghost use Rattle.std.specs.Prelude.{◌≡◌, ◌≤◌, List, ℕ, IfSome, IsTrue, take, codes};
ghost use Rattle.words.specs.Lines.{head, IsLine, lines_told, lines_before};
ghost use Rattle.std.specs.Iterator.Adapters.{skip_count, take_count, take_source};

use std::iter::{Skip, Take};
use std::str::Lines;

// The kinds of line.
#[derive(Clone, Copy, PartialEq, Eq)]
pub enum Kind {
    Refusal,
    Error,
    End,
    Hint,
    Script,
    Usage,
    Command,
    Event,
    Record,
    Motion,
    Part,
    Sample,
    Difference,
}

// The parts of what the tool says, by their numbers.
#[derive(Clone, Copy)]
pub enum Part {
    Punnet = 1,
    StandardOutput = 2,
    Cells = 3,
    Labels = 4,
    Variables = 5,
    Events = 6,
    Header = 7,
    EventRow = 8,
    Turns = 9,
    Records = 10,
    Position = 11,
    Outputs = 12,
    Changed = 13,
    Start = 14,
    Faulty = 15,
    Colon = 16,
    Equals = 17,
    Cut = 18,
    Escape = 19,
    Unfinished = 20,
    Event = 21,
    TurnsAsked = 22,
    FirstTen = 23,
    Version = 24,
    AfterError = 25,
    Handler = 26,
    Compared = 27,
    Kind = 28,
    Variable = 29,
    And = 30,
    Different = 31,
    Equal = 32,
    Record = 33,
    TurnsTaken = 34,
}

// The lines of the text on the tool's use that tell of a command.
pub type Help = Take<Skip<Lines<'static>>>;

// The last command that the text on the tool's use tells of, and how many lines it has for each.
const LAST_COMMAND: u32 = 9;

const HELP_LINES: usize = 3;

// No command or option has this number or a higher one.
const MOST_SOUGHT: u32 = 15;

// The lines for the tool. What is sought most often stands first.
static FOR_TOOL: &str = "event 1: input
event 2: arrived
event 3: position
item 1: output 
item 2: move to 
item 3: move by 
item 4: slew at 
item 5: print 
item 6: error 
axis 0: , still
axis 1: , moving to 
axis 2: , slewing at 
part 1: punnet: 
part 2: standard output
part 3:  bytes, cells 
part 4: , labels 
part 5: , variables 
part 6: events 
part 7:      turn   line  statement                 what it recorded
part 8: event: 
part 9: turns: 
part 10: records: 
part 11: position: 
part 12: outputs:
part 13: changed: 
part 14:  (start 
part 15:  lines are faulty
part 16: : 
part 17:  = 
part 18:  ..
part 19: \\x
part 20: .part
part 21: event 
part 22:  turns: 
part 23:  lines are faulty, the first 10 are shown
part 24: punnet 1.0, for images of edition 1
part 25: ER is the number, EF is 1; reading ER clears EF, ER=0 clears both
part 26: an armed handler is called; its RT arms it again unless an OE ran
part 27:  record   turn  first                    turn  second                  what differs
part 28: kind 
part 29: variable 
part 30:  and 
part 31: , different: 
part 32: , all equal
part 33: record 
part 34: , turns: 
what 1: turn
what 2: kind
what 4: number
what 8: value
what 16: first only
what 32: second only
command 1: try
command 2: translate
command 3: check
command 4: list
command 5: run
command 6: events
command 7: compare
command 8: words
command 9: help
command 10: -h
command 11: --help
command 12: --version
command 13: -f
command 14: --texts
such 1: a text of 16,385 bytes
such 2: a line of 65 characters, its comment among them
such 3: MA 5,1
such 4: R1=2147483648
such 5: VA HI or LB SL, as HI and SL are words of the drives
such 6: LB Q1 behind a line VA Q1
such 7: VA Z2, and 32 lines before it declare a variable
such 8: BR QQ, and no line says LB QQ; or PR HI, as no line may declare HI
such 9: MV=1
such 10: a buffer of 5 bytes for an image of 116; the tool's is long enough
such 11: a buffer of 5 bytes for a listing of 39; the tool's is long enough
such 21: a file of 15 bytes
such 22: an image that another release made
such 23: an image that was cut off, or put together with another file
such 24: an image with a byte of a cell changed
such 25: an image with a label renamed to a word of the drives
such 32: a file of 13 bytes
such 33: 5 input 5 1, as there are four inputs
such 34: punnet run feeder.image - 4097
such 35: a buffer of 11 bytes for one turn; the tool's is long enough
such 51: a file of 13 bytes, or a text in place of records
such 52: a file of 13 bytes, or a text in place of records
such 53: a buffer of 7 bytes for one entry; the tool's is long enough
such 101: IC R1, and R1 is 2147483647
such 102: R1=5/R2, and R2 is 0
such 103: O1=2, as an output is 0 or 1
such 104: LB AA, CL AA: the ninth call finds no place
such 105: RT, and no CL before it
such 106: MR 100 twice, and no H between them
such 109: DC R1, and R1 is -2147483647
";

// The lines for people: numbers of answers, hints, and wrong uses.
static FOR_PEOPLE: &str = "refusal 1: the text has more than 16,384 bytes
refusal 2: the line has more than 64 bytes
refusal 3: a byte or a form that no statement has
refusal 4: a number outside -2,147,483,647 to 2,147,483,647
refusal 5: the name is a word of the drives, which no line may declare
refusal 6: the name is declared on a line before this one
refusal 7: one cell, label or variable over the limit (256, 160, 32)
refusal 8: no declaration of the name, or the first is of another kind
refusal 9: the variable can only be read
refusal 10: the image does not fit into its buffer
refusal 11: the listing does not fit into its buffer
refusal 21: the image has fewer than 16 bytes or more than 5,008
refusal 22: the image is not of edition 1
refusal 23: place, counts and length in the trailer do not fit the image
refusal 24: a cell that translating never makes
refusal 25: a name record that translating never makes
refusal 32: events that are not 12 bytes each, or more than 4,096
refusal 33: a bad event, or a turn below that of the event before
refusal 34: more than 4,096 turns
refusal 35: the record buffer has fewer than 12 bytes for each turn
refusal 51: the first has over 8,192 records, a part of one, or zeros not 0
refusal 52: the second has over 8,192 records, a part of one, or zeros not 0
refusal 53: the list of what differs does not fit into its buffer
error 101: the result is above 2,147,483,647
error 102: division by zero
error 103: the value is outside the range of the variable, of H or of SL
error 104: a call, and all eight return places are in use
error 105: a return, and no place to return to
error 106: a move while the axis is moving
error 109: the result is below -2,147,483,647
end 1: past the last statement
end 2: stopped, no return place was free for the handler
end 3: every turn that was asked for is used
hint 1: a TAB; only blanks may stand between words
hint 2: a carriage return that no line feed follows
hint 3: a control character
hint 4: not a plain character; marks pasted from a manual are often curly
hint 5: a small letter; statements are in capitals
hint 6: a quote; PR takes one number or one variable
hint 7: not a comment mark; a comment starts with '
hint 8: a word of more than two characters
hint 9: a number of more than ten digits
hint 10: no statement begins so; leave out setup and commands such as PG
hint 11: a variable without = behind it
hint 12: the parts of the line make no statement
hint 13: # starts no comment; a comment starts with '
hint 14: // starts no comment; a comment starts with '
hint 15: ; starts no comment; a comment starts with '
hint 16: a byte order mark; save the text without it
hint 17: a text in UTF-16; save it with one byte for a character
hint 18: a non-breaking space; type a plain one
hint 19: a Unicode minus; type a plain -
hint 20: an en dash; type a plain -
hint 21: an em dash; type a plain -
hint 22: a name of one letter; names have two characters
hint 23: a second operator; a statement has at most one
hint 24: a number where the name of a label is wanted
hint 25: LB takes a name of two characters
hint 26: VA takes a name of two characters, then = and a number if wanted
hint 27: IC takes one variable
hint 28: DC takes one variable
hint 29: BR takes a label, then a comma and a comparison if wanted
hint 30: CL takes a label, then a comma and a comparison if wanted
hint 31: RT takes nothing
hint 32: E takes nothing
hint 33: H takes nothing, or one number or variable
hint 34: OE takes a label or 0
hint 35: MA takes one number or variable
hint 36: MR takes one number or variable
hint 37: SL takes one number or variable
hint 38: PR takes one number or variable
hint 39: no line declares
hint 40: is declared as a variable
hint 41: is declared as a label
hint 42: can only be read
hint 43: the turn is below that of the event before
hint 44: the input's number is not 1 to 4
hint 45: the input's value is not 0 or 1
hint 46: the position is outside -2,147,483,647 to 2,147,483,647
hint 47: no such kind; 1 is input, 2 is arrived, 3 is position
hint 48: bytes that must be 0 are not
hint 49: this looks like a text
hint 50: this looks like events or records
hint 51: the file is empty
hint 52: edition
hint 53: is a mnemonic of the language
hint 54: is a variable of the language
hint 55: is a word of the drives; they would take it for their own
hint 56: is a word of the drives; no line may declare it
hint 57: more than 8,192 records
hint 58: records have 12 bytes each
hint 59: this looks like a text; --texts compares the runs of two texts
script 1: no event; TURN arrived, TURN input N VALUE or TURN position VALUE
script 2: a number that does not fit in an event
usage 1: wants TEXT [EVENTS] [TURNS]
usage 2: wants [-f] TEXT IMAGE
usage 3: wants IMAGE
usage 4: wants [-f] IMAGE [TEXT]
usage 5: wants [-f] IMAGE EVENTS TURNS [RECORDS]
usage 6: wants [-f] SCRIPT EVENTS
usage 7: wants [-f] FIRST SECOND [LIST]
usage 8: wants nothing
usage 9: wants [COMMAND or NUMBER]
usage 10: wants [COMMAND or NUMBER]
usage 11: wants [COMMAND or NUMBER]
usage 12: wants nothing
usage 14: wants --texts OLD NEW EVENTS [TURNS]
usage 21: the file that is read; give another name to write to
usage 22: not a plain file, and so not written
usage 23: holds something else than an image; -f writes over it
usage 24: holds something else than records; -f writes over it
usage 25: holds something else than events as bytes; -f writes over it
usage 26: no such command; punnet help lists them
usage 27: not a number of turns
usage 28: longer than a script may be, 262,143 bytes
usage 29: no such option; for a file of that name put ./ in front
usage 30: left from a write that did not end; look at it, then remove it
usage 31: no command and no number; see punnet help and punnet words
usage 32: written, but what is told of it is not
usage 33: is there already and is left alone; -f writes over it
usage 34: is standard input for both; name one of the two files
";

// The text on the tool's use.
static HELP: &str = "punnet: MCode programs tried on the bench before a motor sees them

  punnet try TEXT [EVENTS] [TURNS]
      translate a text, run it, and tell what happened turn by turn
      example: punnet try feeder.mc feeder.events
  punnet translate [-f] TEXT IMAGE
      write the image of a text
      example: punnet translate feeder.mc feeder.image
  punnet check IMAGE
      tell whether a text stands behind an image
      example: punnet check feeder.image
  punnet list [-f] IMAGE [TEXT]
      show a text that translates into an image, or write it to a new file
      example: punnet list feeder.image listed.mc
  punnet run [-f] IMAGE EVENTS TURNS [RECORDS]
      run an image, tell what it recorded, and keep the records in a file
      example: punnet run feeder.image feeder.events 200 feeder.records
  punnet events [-f] SCRIPT EVENTS
      write the events of a script in 12 bytes each
      example: punnet events feeder.events feeder.bytes
  punnet compare [-f] FIRST SECOND [LIST], or --texts OLD NEW EVENTS [TURNS]
      tell what differs between two files of records, or two texts' runs
      example: punnet compare --texts feeder.mc retuned.mc feeder.events
  punnet words
      list every number that an answer can have, with its words
      example: punnet words
  punnet help [COMMAND or NUMBER]
      show this text, what it says of a command, or what a number means
      example: punnet help 8

A script has an event on each line; ' starts a comment:
      3 arrived          in turn 3 the move arrives
      5 input 2 1        in turn 5 input 2 becomes 1
      7 position -100    in turn 7 the position becomes -100
EVENTS is a script or its bytes, or - for no event. TURNS is 0 to 4096;
try and compare take 4096 where none is given. Turns count from 0.
A file that is read may be - for standard input, and one that is
written - for standard output. A file that holds something else than
what is written is replaced only with -f; list and compare replace any
file only so. The status is 0 accepted, run or equal, 1 refused or
different, 2 usage or file trouble.
";

impl Kind {
    // What a line of the kind begins with.
    #[tactic(auto, unfolding(crate::specs::Lines::head))]
    fn head(self) -> &'static str
        ensures { result.now ≡ head self }
    {
        match self {
            Kind::Refusal => "refusal ",
            Kind::Error => "error ",
            Kind::End => "end ",
            Kind::Hint => "hint ",
            Kind::Script => "script ",
            Kind::Usage => "usage ",
            Kind::Command => "command ",
            Kind::Event => "event ",
            Kind::Record => "item ",
            Kind::Motion => "axis ",
            Kind::Part => "part ",
            Kind::Sample => "such ",
            Kind::Difference => "what ",
        }
    }

    // The lines among which those of the kind stand.
    fn table(self) -> &'static str {
        match self {
            Kind::Refusal | Kind::Error | Kind::End | Kind::Hint | Kind::Script | Kind::Usage =>
                for_people(),
            _ => FOR_TOOL,
        }
    }
}

// What a line means, behind the colon and the space, where it is the one for a number of a kind.
#[tactic(auto, unfolding(crate::specs::Lines::IsLine))]
fn meaning<'a>(line: &'a str, kind: Kind, number: u32) -> Option<&'a str>
    ensures { IfSome result (λ said. IsLine kind number line.now said.now) }
{
    let (digits, meaning) = line.strip_prefix(kind.head())?.split_once(": ")?;
    let told = digits.parse::<u32>().ok()?;
    if told == number { Some(meaning) } else { None }
}

// The line for a number of a kind.
pub fn line_for(kind: Kind, number: u32) -> Option<&'static str>
    ensures { IfSome result (λ line. (said : List ℕ) × IsLine kind number line.now said) }
{
    kind.table()
        .lines()
        .find(|line| meaning(*line, kind, number).is_some())
}

// What that line means.
pub fn meaning_for(kind: Kind, number: u32) -> Option<&'static str>
    ensures { IfSome result (λ said. (line : List ℕ) × IsLine kind number line said.now) }
{
    kind.table()
        .lines()
        .find_map(|line| meaning(line, kind, number))
}

// Whether the line for a number of a kind means a word.
pub fn means(kind: Kind, number: u32, word: &[u8]) -> bool
    ensures { IsTrue result → (line : List ℕ) × IsLine kind number line word.now }
{
    meaning_for(kind, number).map(str::as_bytes) == Some(word)
}

// Whether the tables say a word from what the line for a command means on. A word with ends of lines in it goes on with the lines behind that one;
// behind the last line, and where there is no line of that number, all lines are empty.
fn says(number: u32, word: &[u8]) -> bool {
    let tables = Kind::Command.table().lines().chain(for_people().lines());
    let mut lines = tables.chain(help().lines());
    let meant = lines.find_map(|line| meaning(line, Kind::Command, number));
    let mut said = meant.map(str::as_bytes).unwrap_or(&[]);
    for piece in word.split(|b| *b == b'\n') {
        if said != piece {
            return false;
        }
        said = lines.next().map(str::as_bytes).unwrap_or(&[]);
    }
    true
}

// The number of the command or option that a word is; that of none, 15, for ends of lines alone.
pub fn command_for(word: &[u8]) -> Option<u32>
    ensures { IfSome result (λ number. (1 ≤ number) × (number ≤ 15)) }
{
    if word.is_empty() {
        return None;
    }
    (1..=MOST_SOUGHT).find(|number| says(*number, word))
}

// All lines for people.
pub fn for_people() -> &'static str
    ensures { take 10 result.now ≡ codes "refusal 1:" }
{
    FOR_PEOPLE
}

// The text on the tool's use.
pub fn help() -> &'static str
    ensures { take 7 result.now ≡ codes "punnet:" }
{
    HELP
}

// What that text says on a command: three lines, in the order of the commands, behind the title and an empty line; none where it tells of no
// command with this number.
#[tactic(auto, unfolding(crate::specs::Lines::lines_told, crate::specs::Lines::lines_before))]
pub fn help_of(command: u32) -> Help
    ensures told { take_count result ≡ lines_told command }
    ensures before { skip_count (take_source result) ≡ lines_before command }
{
    let lines = help().lines();
    let is_told = (1 <= command) & (command <= LAST_COMMAND);
    if !is_told {
        return lines.skip(0).take(0);
    }
    lines
        .skip(HELP_LINES * (command as usize) - 1)
        .take(HELP_LINES)
}
