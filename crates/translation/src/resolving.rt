// The places and the numbers of a text's names, in the stead of their keys.
ghost use Rattle.std.specs.Prelude.{◌≡◌};
ghost use Rattle.program.specs.Code.{name_of};
ghost use Rattle.reading.specs.Code.{placed, written, operand_with, resolved};
ghost use Rattle.names.specs.Code.{Keyed, KeyOperand};
ghost use Rattle.translation.specs.Resolving.{place_in, number_in, Low};

use program::{Cell, Operand, Variable};
use rows::Row;

// The key where a cell has no name.
// Stays: a cell has 0 where it has no name: `placed` and `written` (crates/reading/specs/Code.antt) ask for it.
const NO_NAME: u16 = 0;

// The rows of a text's names, which have no place past the longest text.
#[derive(Clone, Copy)]
pub struct Names<'a> {
    pub rows: &'a [Row],
    ghost low: { Low rows.now },
}

impl<'a> Names<'a> {
    // The number of the variable with this key: behind the paper's by the user's declarations, or the paper's.
    fn number_of(self, key: u16) -> u16
        ensures { result ≡ number_in self.entry.rows.now (name_of key) }
    {
        let row = rows::look_up(self.rows, key);
        if row.kind == rows::VARIABLE {
            return (Variable::FIRST_USER as u16) + (row.place as u16);
        }
        Variable::number_of(key) as u16
    }

    // The place of the label with this key: how many cells stand before it; 0 where no line declares the name.
    // Stays: only a text without a fault is written, so a name that is sought is declared; the clause says 0 for others (`place_in`).
    pub fn place_of(self, key: u16) -> u16
        ensures { result ≡ place_in self.entry.rows.now (name_of key) }
    {
        rows::look_up(self.rows, key).place as u16
    }

    fn resolve_target(self, target: u16) -> u16
        ensures { result ≡ placed (place_in self.entry.rows.now) target }
    {
        if (target == NO_NAME) | (target == Cell::NO_TARGET) {
            return target;
        }
        self.place_of(target)
    }

    fn resolve_written(self, key: u16) -> u16
        ensures { result ≡ written (number_in self.entry.rows.now) key }
    {
        if key == NO_NAME {
            return 0;
        }
        self.number_of(key)
    }

    fn resolve_operand(self, operand: Operand) -> Operand
        requires { KeyOperand operand }
        ensures { result ≡ operand_with (number_in self.entry.rows.now) operand }
    {
        match operand {
            Operand::Nothing => Operand::Nothing,
            Operand::Literal(value) => Operand::Literal(value),
            Operand::Variable(key) => Operand::Variable(self.number_of(key as u16) as u32),
        }
    }

    // A cell with the places and the numbers of its names in their stead.
    pub fn resolve(self, cell: Cell) -> Cell
        requires { Keyed cell }
        ensures { result ≡ resolved (place_in self.entry.rows.now) (number_in self.entry.rows.now) cell }
    {
        let first = cell.left;
        let second = cell.right;
        let written = self.resolve_written(cell.written);
        let left = self.resolve_operand(first);
        let right = self.resolve_operand(second);
        let target = self.resolve_target(cell.target);
        Cell {
            operation: cell.operation,
            written,
            selector: cell.selector,
            left,
            right,
            target,
        }
    }
}
