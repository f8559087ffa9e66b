// The names that a text declares, and the faults that more than one line is needed to see.
#![tactic(auto)]

ghost use Rattle.std.specs.Prelude.{◌≡◌, ◌<◌, length};
ghost use Rattle.program.specs.Code.{name_of};
ghost use Rattle.text.specs.Faults.{said};
ghost use Rattle.rows.specs.Rows.{row_at, arranged};
ghost use Rattle.names.specs.Code.{Surveyed, AllJudged, Keyed, KeyOperand, ReadKeyed, Below, first_as, earlier, entered_by, unknown_variable_in, unknown_target, unknown_written, unknown_operand, unknown_cell, read_only_key, repeated_by, too_many_by, counted, fault_by, number_of_fault, lowest_number};
ghost use Rattle.names.specs.declared.TextFault.TheVariants.{Own};

use program::{Cell, Operand, Variable};
use reading::{LineFault, Said};
use rows::Row;
use text::Fault;

// How many cells, labels and variables some lines make.
#[derive(Clone, Copy)]
pub struct Counts {
    pub cells: usize,
    pub labels: usize,
    pub variables: usize,
}

// The faults of a line in its text: its own, and those that are seen here.
#[derive(Clone, Copy)]
enum TextFault {
    Own(LineFault),
    Repeated,
    TooMany,
    Undeclared,
    ReadOnly,
}

impl From<LineFault> for TextFault {
    ghost from_gives = { λ fault result. result ≡ Own fault };

    fn from(fault: LineFault) -> TextFault {
        TextFault::Own(fault)
    }
}

impl TextFault {
    fn number(self) -> u8
        ensures { result ≡ number_of_fault self }
    {
        match self {
            TextFault::Own(fault) => fault as u8,
            TextFault::Repeated => 6,
            TextFault::TooMany => 7,
            TextFault::Undeclared => 8,
            TextFault::ReadOnly => 9,
        }
    }
}

// The number of the lowest fault of a line, or 0.
// Stays: 0 for none is the byte that `line_faults` writes, by `AllJudged` (specs/Code.antt).
fn number_or_0(fault: Result<(), TextFault>) -> u8
    ensures { result ≡ lowest_number fault }
{
    match fault {
        Ok(()) => 0,
        Err(fault) => fault.number(),
    }
}

// The key where a cell has no name.
// Stays: a cell has 0 where it has no name: `unknown_target` and `unknown_written` (specs/Code.antt) ask for it.
const NO_NAME: u16 = 0;

// Enters the name that a line declares, if it declares one: the line has this number, and lines with these counts are before it.
fn enter_line(rows: &mut [Row], line: usize, counts: Counts, said: Said)
    ensures { rows.new ≡ entered_by line counts.cells counts.variables said rows.old }
{
    match said {
        Said::Blank | Said::Acts(_) => {}
        Said::Label(name) => {
            let kind = rows::LABEL;
            let place = counts.cells;
            rows::enter(rows, name, Row { kind, line, place });
        }
        Said::Declared(name, _) => {
            let kind = rows::VARIABLE;
            let place = counts.variables;
            rows::enter(rows, name, Row { kind, line, place });
        }
    }
}

impl Counts {
    // Of no line yet.
    const NONE: Counts = Counts {
        cells: 0,
        labels: 0,
        variables: 0,
    };

    // The counts with one line more.
    fn counted(self, said: Said) -> Counts
        requires { Below 18446744073709551615 self }
        ensures { result ≡ counted self said }
    {
        match said {
            Said::Blank => self,
            Said::Label(_) => Counts {
                labels: self.labels + 1,
                ..self
            },
            Said::Declared(_, _) => Counts {
                variables: self.variables + 1,
                ..self
            },
            Said::Acts(_) => Counts {
                cells: self.cells + 1,
                ..self
            },
        }
    }
}

// The names that the lines of a text declare, each in its row.
pub fn arrange(s: &[u8]) -> [Row; rows::COUNT]
    ensures { result ≡ arranged (said s.now) }
{
    let mut rows = [rows::NO_ROW; rows::COUNT];
    let mut counts = Counts::NONE;
    for (k, line) in text::lines_of(s).enumerate() {
        let said = reading::read_line(line).unwrap_or(Said::Blank);
        enter_line(&mut rows, k + 1, counts, said);
        counts = counts.counted(said);
    }
    rows
}

// What stands in the row of the name with this key, once the names of a text are arranged.
pub fn declared_as(s: &[u8], key: u16) -> Row
    ensures { result ≡ row_at (arranged (said s.now)) (name_of key) }
{
    let rows = arrange(s);
    rows::look_up(&rows, key)
}

// The name of this row is first declared as a label, or as a variable.
fn is_first(row: Row, wanted: usize) -> bool
    ensures { result ≡ first_as row wanted }
{
    row.kind == wanted
}

// No variable of the paper's, and not first declared as a variable.
fn is_unknown_variable(rows: &[Row], key: u16) -> bool
    ensures { result ≡ unknown_variable_in rows.now (name_of key) }
{
    if is_first(rows::look_up(rows, key), rows::VARIABLE) {
        return false;
    }
    Variable::number_of(key) == 0
}

// A cell jumps to a name that is not first declared as a label.
fn is_unknown_target(rows: &[Row], target: u16) -> bool
    ensures { result ≡ unknown_target rows.now target }
{
    if (target == NO_NAME) | (target == Cell::NO_TARGET) {
        return false;
    }
    !is_first(rows::look_up(rows, target), rows::LABEL)
}

fn is_unknown_written(rows: &[Row], key: u16) -> bool
    ensures { result ≡ unknown_written rows.now key }
{
    if key == NO_NAME {
        return false;
    }
    is_unknown_variable(rows, key)
}

fn is_unknown_operand(rows: &[Row], operand: Operand) -> bool
    requires { KeyOperand operand }
    ensures { result ≡ unknown_operand rows.now operand }
{
    match operand {
        Operand::Nothing => false,
        Operand::Literal(_) => false,
        Operand::Variable(key) => is_unknown_variable(rows, key as u16),
    }
}

// A cell has a name with no declaration, or whose first is of another kind.
// Stays: `Keyed` is asked for here, since a cell type of its own for keys would say program's `Cell` and `Operand` twice.
fn is_undeclared(rows: &[Row], cell: Cell) -> bool
    requires { Keyed cell }
    ensures { result ≡ unknown_cell rows.now cell }
{
    let left = cell.left;
    let right = cell.right;
    let target = is_unknown_target(rows, cell.target);
    let written = is_unknown_written(rows, cell.written);
    let first = is_unknown_operand(rows, left);
    let second = is_unknown_operand(rows, right);
    target | (written | (first | second))
}

fn writes_read_only(key: u16) -> bool
    ensures { result ≡ read_only_key key }
{
    let number = Variable::number_of(key);
    (key != NO_NAME) & Variable(number).is_read_only()
}

// The name of this row is first declared by a line before this one.
fn is_earlier(row: Row, line: usize) -> bool
    ensures { result ≡ earlier row line }
{
    (row.kind != rows::NOTHING) & (row.line < line)
}

// The line with this number declares a name that a line before it declares.
fn is_repeated(rows: &[Row], line: usize, said: Said) -> bool
    ensures { result ≡ repeated_by rows.now line said }
{
    match said {
        Said::Blank | Said::Acts(_) => false,
        Said::Label(name) | Said::Declared(name, _) => is_earlier(rows::look_up(rows, name), line),
    }
}

// A line makes one thing too many, behind lines with these counts.
fn is_too_many(counts: Counts, said: Said) -> bool
    ensures { result ≡ too_many_by counts said }
{
    match said {
        Said::Blank => false,
        Said::Label(_) => Cell::MOST_LABELS as usize <= counts.labels,
        Said::Declared(_, _) => Variable::MOST_USERS as usize <= counts.variables,
        Said::Acts(_) => Cell::MOST as usize <= counts.cells,
    }
}

// The lowest fault of a line with this number that was read so, behind lines with these counts.
fn line_fault(
    rows: &[Row],
    line: usize,
    counts: Counts,
    reading: Result<Said, LineFault>,
) -> Result<(), TextFault>
    requires { ReadKeyed reading }
    ensures { lowest_number result ≡ fault_by rows.now line counts reading }
{
    let said = reading?;
    if is_repeated(rows, line, said) {
        return Err(TextFault::Repeated);
    }
    if is_too_many(counts, said) {
        return Err(TextFault::TooMany);
    }
    let Said::Acts(cell) = said else {
        return Ok(());
    };
    if is_undeclared(rows, cell) {
        return Err(TextFault::Undeclared);
    }
    if writes_read_only(cell.written) {
        return Err(TextFault::ReadOnly);
    }
    Ok(())
}

// The first fault of a text whose names are in these rows, or its counts: one pass over its lines.
pub fn survey_lines(s: &[u8], rows: &[Row]) -> Result<Counts, Fault>
    requires { rows.now ≡ arranged (said s.now) }
    ensures { Surveyed s.now result }
{
    let mut counts = Counts::NONE;
    for (k, line) in text::lines_of(s).enumerate() {
        let reading = reading::read_line(line);
        let number = k + 1;
        if let Err(fault) = line_fault(rows, number, counts, reading) {
            return Err(Fault {
                number: fault.number(),
                line: number,
            });
        }
        counts = counts.counted(reading.unwrap_or(Said::Blank));
    }
    Ok(counts)
}

// The lowest fault of each line of a text, 0 for none: a byte a line, to the front of the buffer as far as there is room. How many lines there are is handed back.
pub fn line_faults(s: &[u8], faults: &mut [u8]) -> usize
    ensures { AllJudged s.now result faults.old faults.new }
{
    let rows = arrange(s);
    let mut counts = Counts::NONE;
    // Stays: how many lines there are is the answer too, which `enumerate` does not tell behind the loop.
    let mut lines: usize = 0;
    for line in text::lines_of(s) {
        let reading = reading::read_line(line);
        let fault = line_fault(&rows, lines + 1, counts, reading);
        numbers::write(faults, lines, 1, number_or_0(fault) as u64);
        counts = counts.counted(reading.unwrap_or(Said::Blank));
        lines += 1;
    }
    lines
}
