// Clauses in cells.
ghost use Rattle.stores.specs.Cells.{cell_script};
ghost use Rattle.stores.specs.CellsLegible.{cells_legible};

use crate::spelling::Spelling;
use crate::store::{Store, StoreBatch};

// In 32-bit cells a clause is its literals, then 0, and blank cells are 0.
#[derive(Drop)]
pub struct Cells;

pub type CellSink = Store<Cells>;

pub type CellBatch = StoreBatch<Cells>;

impl Spelling for Cells {
    type Element = i32;

    ghost script = { cell_script };

    ghost legible = { cells_legible };

    fn length(clause: &[i32]) -> usize {
        clause.len() + 1
    }

    fn write(cells: &mut [i32], clause: &[i32]) {
        if let Some((literals, end)) = cells.split_at_mut_checked(clause.len()) {
            literals.copy_from_slice(clause);
            end.fill(0);
        }
    }

    fn wipe(cells: &mut [i32]) {
        cells.fill(0);
    }
}
