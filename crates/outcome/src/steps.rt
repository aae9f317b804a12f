// The rows of the steps, made once: a table of rows like that of the sequences.
ghost use Rattle.std.specs.Prelude.{◌≡◌, ◌+◌, ◌*◌, ◌≤◌, length};
ghost use Rattle.reading.specs.Walks.{mask_row, StepRows};
ghost use Rattle.row.specs.Words.{row_words};
ghost use Rattle.library.specs.Tables.{mask_words};

use library::tables::MASK_WORDS;
use row::words::Row;
use rows::table::put_row;

// The row of step `a`, by the table of masks.
fn step_row(all: u64, masks: &[u64], a: usize) -> Row
    requires { mask_words * a + mask_words ≤ length masks.now }
    ensures { result ≡ mask_row all masks.now a }
{
    let at = MASK_WORDS * a;
    Row::of_step(all, masks[at], masks[at + 1], masks[at + 2])
}

// Writes the rows of the steps below `n`, by the table of masks.
pub fn write_step_rows(all: u64, masks: &[u64], n: usize, rows: &mut [u64])
    requires { (mask_words * n ≤ length masks.now) × (row_words * n ≤ length rows.old) }
    ensures { StepRows all masks.now n rows.old rows.new }
{
    for a in 0..n {
        put_row(rows, a, step_row(all, masks, a));
    }
}
