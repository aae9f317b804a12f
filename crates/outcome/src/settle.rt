// The visits of the outcome table: a visit of a sequence unites its row with what its alternatives give. Settled by them, no visit changes a row.
ghost use Rattle.settling.specs.Settling.{Scheduled, Settles};
ghost use Rattle.outcome.specs.Visited.{lacking, RowsVisitable, visited};

use reading::read::{Block, Reader};
use rows::table::{put_row, row_at};
use settling::settle::{Schedule, Visits};

// What visits go by: the block of facts, the rows of the steps, the words of the sequences' part and the place of each sequence there.
#[derive(Clone, Copy)]
pub struct RowVisits<'a> {
    pub block: Block,
    pub steps: &'a [u64],
    pub part: &'a [u32],
    pub places: &'a [u32],
}

impl Visits for RowVisits<'_> {
    type Word = u64;

    ghost value = { λ t. t };

    ghost part = { λ v. v.part.now };

    ghost places = { λ v. v.places.now };

    ghost asked = { λ v n t. RowsVisitable n v.steps.now v.part.now v.places.now t };

    ghost visited = { λ v. visited v.block v.steps.now v.part.now v.places.now };

    ghost weight = { lacking };

    // Unites the row of sequence `c` with what its alternatives give. Answers whether that changed it.
    fn visit(&self, table: &mut [u64], c: usize) -> bool {
        let old = row_at(table, c);
        let at = self.places[c] as usize + 1;
        let reader = Reader {
            block: self.block,
            steps: self.steps,
            table,
            part: self.part,
        };
        let new = old.united(reader.read_sequence(at));
        put_row(table, c, new);
        old != new
    }
}

impl RowVisits<'_> {
    // Visits sequences until no visit changes a row.
    pub fn settle(&self, by: &Schedule, table: &mut [u64])
        requires { RowsVisitable by.now.n self.now.steps.now self.now.part.now self.now.places.now table.old × Scheduled by.now.n self.now.part.now self.now.places.now by.now.callers.now by.now.order.now }
        ensures { Settles (visited self.now.block self.now.steps.now self.now.part.now self.now.places.now) by.now.n table.old table.new }
    {
        by.settle(self, table);
    }
}
