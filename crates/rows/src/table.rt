// Rows in a table: one is read, and one is written.
ghost use Rattle.std.specs.Prelude.{◌≡◌, ◌+◌, ◌*◌, ◌≤◌, length};
ghost use Rattle.row.specs.Words.{row_words, row_in, with_row};

use row::words::{ROW_WORDS, Row};

// Row `c` of a table.
pub fn row_at(table: &[u64], c: usize) -> Row
    requires { row_words * c + row_words ≤ length table.now }
    ensures { result ≡ row_in table.now c }
{
    let at = ROW_WORDS * c;
    let words = &table[at..at + ROW_WORDS];
    Row::from(*words.as_array().unwrap())
}

// Writes row `c` of a table.
pub fn put_row(table: &mut [u64], c: usize, r: Row)
    requires { row_words * c + row_words ≤ length table.old }
    ensures { table.new ≡ with_row table.old c r }
{
    let at = ROW_WORDS * c;
    let words: [u64; ROW_WORDS] = r.into();
    table[at..at + ROW_WORDS].copy_from_slice(&words);
}
