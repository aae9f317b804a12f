// A row of the outcome table: what is possible of one sequence, or of the entries read so far, for all facts of a block at once. Bit b of each word
// says it of fact b of the block.
ghost use Rattle.std.specs.Prelude.{◌≡◌};
ghost use Rattle.row.specs.Words.{start_marks, start_row, step_marks, step_row, check_row, later_marks, join_rows, or_marks, or_rows, kept_marks, row_in, words_of};

use column::sets::without;
use column::with_fact_in;

// The words of a row in a table.
pub const ROW_WORDS: usize = 10;

// A word of which every bit is set.
pub const ALL_BITS: u64 = u64::MAX;

// The outcomes on one side. On the last side `present` is "sets" and `absent` is "clears"; on the first side `present` is "needs" and
// `absent` is "sets".
#[derive(Clone, Copy, PartialEq, Eq, Default)]
pub struct Marks {
    pub present: u64,
    pub absent: u64,
    pub untouched: u64,
}

impl Marks {
    // The marks of no entry.
    fn start(all: u64) -> Marks
        ensures { result ≡ start_marks all }
    {
        Marks {
            untouched: all,
            ..Marks::default()
        }
    }

    // The marks of a step that gives one mark by `one` and, where it does not, the other by `other`.
    fn of_step(all: u64, one: u64, other: u64) -> Marks
        ensures { result ≡ step_marks all one other }
    {
        Marks {
            present: one,
            absent: other & !one,
            untouched: all & !(one | other),
        }
    }

    // The marks of one list followed by another, where the later one's touch decides.
    fn later(self, other: Marks) -> Marks
        ensures { result ≡ later_marks self other }
    {
        Marks {
            present: (self.present & other.untouched) | other.present,
            absent: (self.absent & other.untouched) | other.absent,
            untouched: self.untouched & other.untouched,
        }
    }

    // What either has.
    fn united(self, other: Marks) -> Marks
        ensures { result ≡ or_marks self other }
    {
        Marks {
            present: self.present | other.present,
            absent: self.absent | other.absent,
            untouched: self.untouched | other.untouched,
        }
    }

    // The marks of the facts in `all`.
    pub fn kept(self, all: u64) -> Marks
        ensures { result ≡ kept_marks self all }
    {
        Marks {
            present: self.present & all,
            absent: self.absent & all,
            untouched: self.untouched & all,
        }
    }
}

// A run exists; an empty run exists; the outcomes on the last and on the first side; of what stands, that some run's last item that mentions the
// fact clears it, and that some run has no such item. By default nothing is possible.
#[derive(Clone, Copy, PartialEq, Eq, Default)]
pub struct Row {
    pub run: u64,
    pub empty: u64,
    pub last: Marks,
    pub first: Marks,
    pub cleared: u64,
    pub unmentioned: u64,
}

impl Row {
    // The row of no entry: the empty run.
    pub fn start(all: u64) -> Row
        ensures { result ≡ start_row all }
    {
        Row {
            run: all,
            empty: all,
            last: Marks::start(all),
            first: Marks::start(all),
            cleared: 0,
            unmentioned: all,
        }
    }

    // The row of a step by what it needs, sets and clears.
    pub fn of_step(all: u64, needs: u64, sets: u64, clears: u64) -> Row
        ensures { result ≡ step_row all needs sets clears }
    {
        Row {
            run: all,
            empty: 0,
            last: Marks::of_step(all, sets, clears),
            first: Marks::of_step(all, needs, sets),
            cleared: clears,
            unmentioned: all & !(needs | sets | clears),
        }
    }

    // The row of a check of fact `f`, for the facts of a block: an empty run, which needs the fact and touches nothing on the last side. Where it
    // leaves a fact alone all bits are set, those from F upward too, so that the row before it is joined to it by the fact's bit alone; and that is
    // set in the fact's own block only.
    pub fn of_check(block: u32, f: u32) -> Row
        ensures { result ≡ check_row block f }
    {
        let fact = with_fact_in(0, block, f);
        let others = without(ALL_BITS, fact);
        Row {
            first: Marks {
                present: fact,
                ..Marks::start(others)
            },
            unmentioned: others,
            ..Row::start(ALL_BITS)
        }
    }

    // The row of one list followed by another, of which a run is found.
    pub fn joined(self, next: Row) -> Row
        ensures { result ≡ join_rows self next }
    {
        Row {
            run: self.run,
            empty: self.empty & next.empty,
            last: self.last.later(next.last),
            first: next.first.later(self.first),
            cleared: (self.cleared & next.unmentioned) | next.cleared,
            unmentioned: self.unmentioned & next.unmentioned,
        }
    }

    // What either row has.
    pub fn united(self, other: Row) -> Row
        ensures { result ≡ or_rows self other }
    {
        Row {
            run: self.run | other.run,
            empty: self.empty | other.empty,
            last: self.last.united(other.last),
            first: self.first.united(other.first),
            cleared: self.cleared | other.cleared,
            unmentioned: self.unmentioned | other.unmentioned,
        }
    }
}

// The words of a row stand in a table in the order of the columns.
impl From<[u64; ROW_WORDS]> for Row {
    ghost from_gives = { λ words row. row ≡ row_in words 0 };

    fn from(words: [u64; ROW_WORDS]) -> Row {
        let [
            run,
            empty,
            last_set,
            last_cleared,
            last_untouched,
            first_needed,
            first_set,
            first_untouched,
            cleared,
            unmentioned,
        ] = words;
        Row {
            run,
            empty,
            last: Marks {
                present: last_set,
                absent: last_cleared,
                untouched: last_untouched,
            },
            first: Marks {
                present: first_needed,
                absent: first_set,
                untouched: first_untouched,
            },
            cleared,
            unmentioned,
        }
    }
}

impl From<Row> for [u64; ROW_WORDS] {
    ghost from_gives = { λ row words. words ≡ words_of row };

    fn from(row: Row) -> [u64; ROW_WORDS] {
        let Row {
            run,
            empty,
            last,
            first,
            cleared,
            unmentioned,
        } = row;
        [
            run,
            empty,
            last.present,
            last.absent,
            last.untouched,
            first.present,
            first.absent,
            first.untouched,
            cleared,
            unmentioned,
        ]
    }
}
