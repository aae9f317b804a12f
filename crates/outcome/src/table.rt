// The outcome table of a library: for each sequence a row, worked out for all facts of a block at once from the image's slices.
ghost use Rattle.std.specs.Prelude.{◌≡◌, ◌++◌, ◌*◌, drop};
ghost use Rattle.library.specs.Library.{library_of};
ghost use Rattle.outcome.specs.Area.{outcomes, OutcomesAsked};
ghost use Rattle.row.specs.Words.{row_words};

use crate::settle::RowVisits;
use crate::steps::write_step_rows;
use column::all_in;
use image::word::{MOST_SEQUENCES, MOST_STEPS};
use library::checked::Accepted;
use reading::read::Block;
use row::words::ROW_WORDS;
use settling::settle::Schedule;
use tables::prepare::prepare_masks;
use tables::size::{SMALL_SEQUENCES, SMALL_STEPS};

// A row a step for the rows of the steps, and a row a sequence for the table.
pub const SMALL_STEP_ROWS: usize = ROW_WORDS * SMALL_STEPS as usize;

pub const MOST_STEP_ROWS: usize = ROW_WORDS * MOST_STEPS as usize;

pub const SMALL_ROWS: usize = ROW_WORDS * SMALL_SEQUENCES as usize;

pub const MOST_ROWS: usize = ROW_WORDS * MOST_SEQUENCES as usize;

// An accepted image with the tables that all blocks of facts have in common: the place of each sequence, the sets of callers, an order of visits.
#[derive(Clone, Copy)]
pub struct Tables<'a> {
    pub accepted: Accepted<'a>,
    pub places: &'a [u32],
    pub callers: &'a [u64],
    pub order: &'a [usize],
}

impl Tables<'_> {
    // Writes the outcome table of the facts of a block into `table`, by way of the masks and the rows of the steps. These and the table are lent
    // blank. Words past the table stay.
    pub fn outcome_table(&self, number: u32, masks: &mut [u64], rows: &mut [u64], table: &mut [u64])
        requires { OutcomesAsked self.now.accepted.head self.now.accepted.image.now number masks.old self.now.places.now self.now.callers.now self.now.order.now rows.old table.old }
        ensures { table.new ≡ outcomes (library_of self.now.accepted.image.now) number ++ drop (row_words * self.now.accepted.head.sequences) table.old }
    {
        let head = self.accepted.head;
        let n = head.sequences as usize;
        let all = all_in(head.facts as u64, number);
        prepare_masks(&self.accepted, number, masks);
        write_step_rows(all, masks, head.steps as usize, rows);
        let visits = RowVisits {
            block: Block { number, all },
            steps: rows,
            part: self.accepted.sequences_part(),
            places: self.places,
        };
        let schedule = Schedule {
            n,
            callers: self.callers,
            order: &self.order[..n],
        };
        visits.settle(&schedule, &mut table[..ROW_WORDS * n]);
    }
}
