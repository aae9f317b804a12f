// One walk over the words of a sequence: its alternatives, each folded from left to right for all facts of a block at once.
ghost use Rattle.std.specs.Prelude.{◌≡◌, true, false, ◌≤◌, length, drop};
ghost use Rattle.image.specs.Word.{is_kind, is_entry};
ghost use Rattle.library.specs.Library.{alternatives_from};
ghost use Rattle.library.specs.Library.{entry_of};
ghost use Rattle.row.specs.Words.{no_row};
ghost use Rattle.reading.specs.declared.read.Block.{Block};
ghost use Rattle.reading.specs.Walks.{RowWithin, RowsReadable, entry_in, united_from, AlternativeFolded, EmptiesEnd};

use image::word::{Kind, is_entry, payload_of};
use row::words::Row;
use rows::table::row_at;
use walk::entries::Ended;
use walk::sequence::{is_check, part_entry, rest_end, word_at};

// A block of facts: its number, and the column of those of its facts that there are.
#[derive(Clone, Copy)]
pub struct Block {
    pub number: u32,
    pub all: u64,
}

// The row of an alternative, and the index at which the walk over its entries ended: that of the first dead one, or of the word after them.
pub type Read = Ended<Row>;

// What the words of the sequences are read by: a block of facts, the rows of its steps, and the table of the rows found so far.
#[derive(Clone, Copy)]
pub struct Reader<'a> {
    pub block: Block,
    pub steps: &'a [u64],
    pub table: &'a [u64],
    pub part: &'a [u32],
    ghost readable: { RowsReadable steps.now table.now part.now },
}

// The index after the alternatives without entries that stand from index `at` on.
fn empties_end(part: &[u32], at: usize) -> usize
    requires { at ≤ length part.now }
    ensures { EmptiesEnd part.now at result }
{
    for i in at..part.len() {
        if !Kind::Alternative.is_of(part[i]) {
            return i;
        }
        if is_entry(word_at(part, i + 1)) {
            return i;
        }
    }
    part.len()
}

impl<'a> Reader<'a> {
    // The row of an entry that names a step or a sequence.
    fn named_row(&self, w: u32) -> Row
        requires { RowWithin self.now.steps.now self.now.table.now w × (is_entry w ≡ true) × (is_kind 13 w ≡ false) }
        ensures { (b : Block) → result ≡ entry_in b self.now.steps.now self.now.table.now (entry_of w) }
    {
        if Kind::StepEntry.is_of(w) {
            return row_at(self.steps, payload_of(w) as usize);
        }
        row_at(self.table, payload_of(w) as usize)
    }

    // Reads the entries that stand from index `at` on. The walk ends at the first that names a sequence not found to have a run: nothing further
    // can count. A step has one, so its row passes the same test. A check has one too; it is joined apart, so that the rows of the others are
    // joined from their tables without a copy.
    fn read_alternative(&self, at: usize) -> Read
        requires { at ≤ length self.now.part.now }
        ensures { AlternativeFolded self.now.block self.now.steps.now self.now.table.now self.now.part.now at result }
    {
        let mut row = Row::start(self.block.all);
        for i in at..self.part.len() {
            let w = self.part[i];
            if !part_entry(w) {
                return Ended {
                    value: row,
                    ended: i,
                };
            }
            if is_check(w) {
                row = row.joined(Row::of_check(self.block.number, payload_of(w)));
            } else {
                let named = self.named_row(w);
                if named.run == 0 {
                    return Ended {
                        value: Row::default(),
                        ended: i,
                    };
                }
                row = row.joined(named);
            }
        }
        Ended {
            value: row,
            ended: self.part.len(),
        }
    }

    // Unites the alternatives that stand from index `at` on, up to the next sequence, past the entries that a walk has left. An alternative
    // without entries has the row that reading begins with, and where many of them stand in a row it is united once.
    pub fn read_sequence(&self, at: usize) -> Row
        requires { at ≤ length self.now.part.now }
        ensures { result ≡ united_from self.now.block self.now.steps.now self.now.table.now no_row (alternatives_from (drop at self.now.part.now)) }
    {
        let mut row = Row::default();
        let mut i = at;
        // Each turn goes on where a walk over entries or empty alternatives ended, so that no range or iterator counts the turns.
        while i < self.part.len() {
            let w = self.part[i];
            i += 1;
            if is_entry(w) {
                i = rest_end(self.part, i);
            } else if !Kind::Alternative.is_of(w) {
                return row;
            } else if is_entry(word_at(self.part, i)) {
                let read = self.read_alternative(i);
                row = row.united(read.value);
                i = read.ended;
            } else {
                row = row.united(Row::start(self.block.all));
                i = empties_end(self.part, i);
            }
        }
        row
    }
}
