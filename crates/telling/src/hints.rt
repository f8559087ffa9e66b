// What is wrong on a line of a text, as far as can be told, and where.
use crate::given::{EventFault, FileFault, RecordsFault};
use crate::marks::Mark;
use crate::runs::Mnemonic;
use crate::{marks, runs};
use program::Variable;
use program::names::{is_paper_word, is_user_name};
use program::reserved::is_reserved;

// What is said of what is wrong. A name is told by its key.
#[derive(Clone, Copy)]
pub enum Hint {
    Byte(Mark),
    Form(FormFault),
    // What the mnemonic takes that the line begins with.
    Takes(Mnemonic),
    Name(u16, NameFault),
    Undeclared(u16),
    Event(EventFault),
    Records(RecordsFault),
    File(FileFault),
    // An image of another edition.
    Edition(u16),
}

// Where something is wrong on a line, and what, as far as can be told.
#[derive(Clone, Copy)]
pub struct Found {
    pub place: usize,
    pub hint: Option<Hint>,
}

// What is wrong with the words on a line that is no statement, by the number of its hint.
#[derive(Clone, Copy)]
pub enum FormFault {
    LongWord = 8,
    LongNumber = 9,
    NoStatement = 10,
    NoEquals = 11,
    NoForm = 12,
    OneLetter = 22,
    SecondOperator = 23,
    NumberForLabel = 24,
}

// What is wrong with a name, by the number of its hint, which begins with the name. Where a line declares one of the last four, which no line may
// declare, they say what it is; the very last is for its other uses.
#[derive(Clone, Copy)]
pub enum NameFault {
    IsVariable = 40,
    IsLabel = 41,
    ReadOnly = 42,
    IsMnemonic = 53,
    IsPaperVariable = 54,
    IsDriveWord = 55,
    NeverDeclared = 56,
}

// The numbers of the other hints: they end with what they are about.
const UNDECLARED: u32 = 39;

const EDITION: u32 = 52;

// The refusals of a line that point at more than its beginning, by their numbers.
#[derive(Clone, Copy)]
enum Refusal {
    LongLine = 2,
    BadForm = 3,
    BigLiteral = 4,
    ReservedName = 5,
    Repeated = 6,
    Unknown = 8,
    Stored = 9,
}

// The longest runs of digits.
const DIGITS: usize = 10;

const HIGHEST: u64 = Variable::HIGHEST_LITERAL as u64;

impl Hint {
    // The number of its words.
    pub fn number(self) -> u32 {
        match self {
            Hint::Byte(mark) => mark as u32,
            Hint::Form(fault) => fault as u32,
            Hint::Takes(mnemonic) => mnemonic.hint(),
            Hint::Name(_, fault) => fault as u32,
            Hint::Undeclared(_) => UNDECLARED,
            Hint::Event(fault) => fault as u32,
            Hint::Records(fault) => fault as u32,
            Hint::File(fault) => fault as u32,
            Hint::Edition(_) => EDITION,
        }
    }

    // The hint, and its place on a line.
    pub fn at(self, place: usize) -> Found {
        Found {
            place,
            hint: Some(self),
        }
    }
}

impl Found {
    // A place of which no more is told.
    pub fn place(place: usize) -> Found {
        Found { place, hint: None }
    }

    // The column, from 1. No place is far behind the longest line.
    pub fn column(self) -> usize {
        if text::Span::LONGEST < self.place {
            return 1;
        }
        self.place + 1
    }
}

impl Refusal {
    const ALL: [Refusal; 7] = [
        Refusal::LongLine,
        Refusal::BadForm,
        Refusal::BigLiteral,
        Refusal::ReservedName,
        Refusal::Repeated,
        Refusal::Unknown,
        Refusal::Stored,
    ];

    fn of(number: u8) -> Option<Refusal> {
        Self::ALL
            .into_iter()
            .find(|refusal| *refusal as u8 == number)
    }
}

// What is wrong with a run on a line that is no statement: it is too long, or too short for a name. A first run may be a mnemonic.
fn of_run(run: &[u8], is_first: bool) -> Option<FormFault> {
    if is_first && Mnemonic::of(run).is_some() {
        return None;
    }
    match run {
        [b'0'..=b'9', ..] => (DIGITS < run.len()).then_some(FormFault::LongNumber),
        [first] => {
            let is_name = is_first | is_paper_word(*first as u16);
            (!is_name).then_some(FormFault::OneLetter)
        }
        _ => (runs::WORD < run.len()).then_some(FormFault::LongWord),
    }
}

// How the name is declared that a run is, if it is one of the user's and not declared as it is wanted.
fn of_user(text: &[u8], run: &[u8], wanted: usize) -> Option<Hint> {
    let key = runs::key(run)?;
    if !is_user_name(key) {
        return None;
    }
    match names::declared_as(text, key).kind {
        kind if kind == wanted => None,
        rows::LABEL => Some(Hint::Name(key, NameFault::IsLabel)),
        rows::VARIABLE => Some(Hint::Name(key, NameFault::IsVariable)),
        _ if is_reserved(key) => Some(Hint::Name(key, NameFault::NeverDeclared)),
        _ => Some(Hint::Undeclared(key)),
    }
}

// What a word is that no line may declare. Of the words of the paper, those that are no mnemonics are variables.
fn of_word(word: &[u8], key: u16) -> NameFault {
    if Mnemonic::of(word).is_some() {
        return NameFault::IsMnemonic;
    }
    if is_paper_word(key) {
        return NameFault::IsPaperVariable;
    }
    NameFault::IsDriveWord
}

// The name that a line declares and that no line may declare.
fn of_reserved(code: &[u8]) -> Found {
    let place = runs::second(code);
    let word = runs::at(code, place);
    Found {
        place,
        hint: runs::key(word).map(|key| Hint::Name(key, of_word(word, key))),
    }
}

// Whether a run is a number that no literal can be.
fn is_big(run: &[u8]) -> bool {
    scripts::digits(run).is_ok_and(|size| HIGHEST < size)
}

// The place of a label's name that a line jumps to, if it jumps anywhere.
fn label_place(code: &[u8]) -> Option<usize> {
    let mnemonic = runs::beginning(code)?;
    mnemonic.wants_label().then(|| runs::second(code))
}

// The place of the name that a line stores to: behind a mnemonic, or in front.
fn stored_place(code: &[u8]) -> usize {
    match runs::beginning(code) {
        Some(_) => runs::second(code),
        None => runs::first(code),
    }
}

// Whether an operator stands at a place.
// Stays: forms has the operators in the order of their numbers, for its own use; asked of one byte, a pattern is plainer than a table.
fn has_operator(code: &[u8], place: usize) -> bool {
    matches!(
        parts::byte(code, place),
        b'+' | b'-' | b'*' | b'/' | b'&' | b'|' | b'^'
    )
}

// The place behind the operand that follows a sign. Its first byte, be it a minus, is passed over.
fn behind_operand(code: &[u8], sign: usize) -> usize {
    let first = parts::past_blanks(code, sign.saturating_add(1));
    parts::past_blanks(code, runs::end(code, first.saturating_add(1)))
}

// A line with an equals sign behind its first run.
fn of_setting(code: &[u8]) -> Found {
    let first = runs::first(code);
    if of_run(runs::at(code, first), false).is_some() {
        return Hint::Form(FormFault::OneLetter).at(first);
    }
    let operator = behind_operand(code, runs::second(code));
    let next = behind_operand(code, operator);
    if has_operator(code, operator) & has_operator(code, next) {
        return Hint::Form(FormFault::SecondOperator).at(next);
    }
    Hint::Form(FormFault::NoForm).at(first)
}

// A line that begins with a mnemonic: a number stands where a label's name is wanted, other than the one that OE takes, or what it takes.
fn of_mnemonic(code: &[u8], mnemonic: Mnemonic) -> Found {
    let second = runs::second(code);
    let is_number = match runs::at(code, second) {
        [b'0'] => !mnemonic.takes_zero(),
        [b'0'..=b'9', ..] => true,
        _ => false,
    };
    if mnemonic.wants_label() & is_number {
        return Hint::Form(FormFault::NumberForLabel).at(second);
    }
    Hint::Takes(mnemonic).at(runs::first(code))
}

// How a line begins that is no statement.
fn of_beginning(code: &[u8]) -> Found {
    if let Some(mnemonic) = runs::beginning(code) {
        return of_mnemonic(code, mnemonic);
    }
    if parts::byte(code, runs::second(code)) == b'=' {
        return of_setting(code);
    }
    let first = runs::first(code);
    // It is no mnemonic, and so a variable.
    if runs::key(runs::at(code, first)).is_some_and(is_paper_word) {
        return Hint::Form(FormFault::NoEquals).at(first);
    }
    Hint::Form(FormFault::NoStatement).at(first)
}

// The first run that is wrong on a line that is no statement, or how the line begins.
fn of_words(code: &[u8]) -> Found {
    let first = runs::first(code);
    match runs::first_told(code, |place, run| of_run(run, place == first)) {
        Some((place, fault)) => Hint::Form(fault).at(place),
        None => of_beginning(code),
    }
}

// What is wrong on a line that is no statement: the first byte that stands wrong, or the words.
fn of_form(line: &[u8], code: &[u8]) -> Found {
    match marks::first(line, code.len()) {
        Some((place, mark)) => Hint::Byte(mark).at(place),
        None => of_words(code),
    }
}

// The first number on a line that no literal can be.
fn of_literal(code: &[u8]) -> Found {
    let big = runs::first_told(code, |_, run| is_big(run).then_some(()));
    Found::place(big.map_or(code.len(), |(place, _)| place))
}

// The first name on a line that is not declared as it is wanted.
fn of_names(text: &[u8], code: &[u8]) -> Found {
    let label = label_place(code);
    let wanted = |place| {
        if label == Some(place) {
            rows::LABEL
        } else {
            rows::VARIABLE
        }
    };
    match runs::first_told(code, |place, run| of_user(text, run, wanted(place))) {
        Some((place, hint)) => hint.at(place),
        None => Found::place(code.len()),
    }
}

// The name that a line stores to.
fn of_stored(code: &[u8]) -> Found {
    let place = stored_place(code);
    let name = runs::key(runs::at(code, place));
    Found {
        place,
        hint: name.map(|key| Hint::Name(key, NameFault::ReadOnly)),
    }
}

// What is wrong on a line of a text that gets a refusal.
pub fn of_line(text: &[u8], line: &[u8], refusal: u8) -> Found {
    let code = parts::code(line);
    match Refusal::of(refusal) {
        Some(Refusal::LongLine) => Found::place(text::Span::LONGEST),
        Some(Refusal::BadForm) => of_form(line, code),
        Some(Refusal::BigLiteral) => of_literal(code),
        Some(Refusal::ReservedName) => of_reserved(code),
        Some(Refusal::Repeated) => Found::place(runs::second(code)),
        Some(Refusal::Unknown) => of_names(text, code),
        Some(Refusal::Stored) => of_stored(code),
        None => Found::place(runs::first(code)),
    }
}
