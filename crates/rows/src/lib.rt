// An arrangement of names: a row for each name of two characters, in the order of the names. What a name is first declared as is one step away.
#![tactic(auto)]

ghost use Rattle.std.specs.Prelude.{◌≡◌, T};
ghost use Rattle.program.specs.Names.{word_character};
ghost use Rattle.program.specs.Code.{name_of};
ghost use Rattle.rows.specs.Rows.{second_place, row_of, row_at, enter};

use program::names;

// What the first line that declares a name makes of it: its kind; the number of that line, from 1; and for a label the cells, for a variable
// the variables in front of it.
// Stays: three numbers, whatever they are, make a row: `row_at` and `enter` (specs/Rows.antt) keep one of any kind and hand it back.
#[derive(Clone, Copy, PartialEq, Eq, PartialOrd, Ord, Hash, Debug, Default)]
pub struct Row {
    pub kind: usize,
    pub line: usize,
    pub place: usize,
}

// What a line declares a name as; nothing where no line does.
// Stays: numbers and no enum, since docs/PAPER.md names `look_up` and `enter`, which take any row; `made` (specs/Rows.antt) says these.
pub const NOTHING: usize = 0;

pub const LABEL: usize = 1;

pub const VARIABLE: usize = 2;

pub const NO_ROW: Row = Row {
    kind: NOTHING,
    line: 0,
    place: 0,
};

// How many names there are, and how many of them begin alike.
pub const COUNT: usize = 936;

const ALIKE: usize = 36;

// How many digits come before the letters.
const DIGITS: usize = 10;

// The place of a character among those that a name may have second.
fn second_place(character: usize) -> usize
    requires { T (word_character character) }
    ensures { result ≡ second_place character }
{
    if character <= (b'9' as usize) {
        return character - (b'0' as usize);
    }
    character - (b'A' as usize) + DIGITS
}

// The row of the name with this key; past the last one where that is no name of two characters.
// Stays: `row_of` (specs/Rows.antt, Q-3 2) has 936 for what is no name of two characters, and no row stands there, so `look_up` asks once.
fn row_of(key: u16) -> usize
    ensures { result ≡ row_of (name_of key) }
{
    if !names::has_two_characters(key) {
        return COUNT;
    }
    let [first, second] = key.to_le_bytes();
    usize::from(first - b'A') * ALIKE + second_place(usize::from(second))
}

// What stands in the row of the name with this key.
pub fn look_up(rows: &[Row], key: u16) -> Row
    ensures { result ≡ row_at rows.now (name_of key) }
{
    rows.get(row_of(key)).copied().unwrap_or(NO_ROW)
}

// Puts a row where the name with this key has its own, if nothing stands there yet.
pub fn enter(rows: &mut [Row], key: u16, row: Row)
    ensures { rows.new ≡ enter rows.old (name_of key) row }
{
    let i = row_of(key);
    if rows.len() <= i {
        return;
    }
    let is_taken = NOTHING < rows[i].kind;
    if is_taken {
        return;
    }
    rows[i] = row;
}
