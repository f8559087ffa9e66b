// The image of a text, written from its lines.
#![tactic(auto)]

ghost use Rattle.std.specs.Prelude.{◌≡◌, true, ◌++◌, ◌≤◌, length, drop};
ghost use Rattle.text.specs.Faults.{said, first_fault};
ghost use Rattle.reading.specs.Code.{in_cell};
ghost use Rattle.rows.specs.Rows.{arranged};
ghost use Rattle.names.specs.Code.{SaidKeyed, counts_of};
ghost use Rattle.image.specs.Layout.{image_length};
ghost use Rattle.translation.specs.Images.{cell_part, label_part, variable_part, image_of};
ghost use Rattle.translation.specs.Code.{emit_from, emitted_by, places_by, Within, fewer, Faultless, PlacedAt};

use names::Counts;
use reading::Said;
use resolving::Names;
use rows::Row;

mod resolving;

// Where the next cell, label record and variable record of an image go.
#[derive(Clone, Copy)]
pub struct Places {
    pub cell: usize,
    pub label: usize,
    pub variable: usize,
}

// How many bytes each of them takes.
const CELL_BYTES: usize = 16;

const LABEL_BYTES: usize = 4;

const VARIABLE_BYTES: usize = 8;

// Puts what a line of the text says at its place, and tells the places behind it.
fn emit_line(names: Names, buffer: &mut [u8], said: Said, places: Places) -> Places
    requires keyed { SaidKeyed said }
    requires within { Within 4294967296 places }
    ensures { (result ≡ places_by names.entry.rows.now said places) × (buffer.new ≡ emitted_by names.entry.rows.now said places buffer.old) }
{
    match said {
        Said::Blank => places,
        Said::Label(name) => {
            image::write_label(buffer, places.label, name, names.place_of(name));
            Places {
                label: places.label + LABEL_BYTES,
                ..places
            }
        }
        Said::Declared(name, start) => {
            image::write_variable(buffer, places.variable, name, start);
            Places {
                variable: places.variable + VARIABLE_BYTES,
                ..places
            }
        }
        Said::Acts(cell) => {
            image::write_cell(buffer, places.cell, names.resolve(cell));
            Places {
                cell: places.cell + CELL_BYTES,
                ..places
            }
        }
    }
}

// Puts what the lines of the text say behind one another, from these places on; the text's names are in these rows.
fn emit_lines(s: &[u8], rows: &[Row], buffer: &mut [u8], start: Places)
    requires faultless { Faultless s.now }
    requires arranged { rows.now ≡ arranged (said s.now) }
    requires within { Within 65536 start }
    ensures { buffer.new ≡ emit_from (cell_part (said s.now)) (label_part (said s.now)) variable_part start.cell start.label start.variable (said s.now) buffer.old }
{
    let names = Names { rows };
    let mut places = start;
    for line in text::lines_of(s) {
        let said = reading::read_line(line).unwrap_or(Said::Blank);
        places = emit_line(names, buffer, said, places);
    }
}

// The image of a text without a fault whose names are in these rows, into a buffer with room for it: the lines, and the trailer behind them.
pub fn write_image(s: &[u8], rows: &[Row], buffer: &mut [u8], counts: Counts)
    requires short { length s.now ≤ 16384 }
    requires clear { (first_fault s.now).number ≡ 0 }
    requires arranged { rows.now ≡ arranged (said s.now) }
    requires counted { counts ≡ counts_of (said s.now) }
    requires has_room { image_length counts.cells counts.labels counts.variables ≤ length buffer.old }
    ensures { buffer.new ≡ image_of (said s.now) ++ drop (length (image_of (said s.now))) buffer.old }
{
    let cells = counts.cells as u16;
    let labels = counts.labels as u16;
    let variables = counts.variables as u16;
    let places = Places {
        cell: 0,
        label: image::label_place(cells, 0),
        variable: image::variable_place(cells, labels, 0),
    };
    emit_lines(s, rows, buffer, places);
    let trailer = image::variable_place(cells, labels, variables);
    image::write_trailer(buffer, trailer, cells, labels, variables);
}

// A line of a text, counted from 1, and where its bytes start and end, without its ending.
#[derive(Clone, Copy)]
pub struct Placed {
    pub line: usize,
    pub start: usize,
    pub end: usize,
}

fn makes_cell(said: Said) -> bool
    ensures { result ≡ in_cell (λ c. true) said }
{
    match said {
        Said::Blank => false,
        Said::Label(_) => false,
        Said::Declared(_, _) => false,
        Said::Acts(_) => true,
    }
}

// One less where the test holds, and never below 0.
fn fewer_if(test: bool, n: u16) -> u16
    ensures { result ≡ fewer test n }
{
    if test {
        return n.saturating_sub(1);
    }
    n
}

// The line that makes the cell with this number, sought from the front of the text.
pub fn line_of(s: &[u8], place: u16) -> Option<Placed>
    ensures { PlacedAt s.now place result }
{
    let mut left = place;
    let mut line: usize = 1;
    let mut at: usize = 0;
    // Stays: the answer has the line's place in the text, which `text::lines_of` does not tell.
    while at < s.len() {
        let span = text::line_at(s, at);
        let end = span.end;
        let said = reading::read_line(&s[at..end]).unwrap_or(Said::Blank);
        let is_cell = makes_cell(said);
        if is_cell & (left == 0) {
            return Some(Placed {
                line,
                start: at,
                end,
            });
        }
        left = fewer_if(is_cell, left);
        line += 1;
        at = span.next;
    }
    None
}
