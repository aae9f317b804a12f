// The numbers of a card: the flags and the columns, each of them a word for a block of 64 facts, from a row of the block's outcome table.
ghost use Rattle.std.specs.Prelude.{◌≡◌};
ghost use Rattle.row.specs.Words.{words_of};
ghost use Rattle.writer.specs.Card.{flags_of, always_of, row_numbers};

use column::sets::{count, union, without};
use row::words::Row;

// The numbers of a card: the flags first, then the columns in their order.
pub const FLAGS: usize = 0;

// The columns of a card, each by the number that it is of the card's. The last two are of what stands: some run's last item that sets, clears, needs
// or checks the fact clears it; some run has no such item.
#[derive(Clone, Copy, PartialEq, Eq)]
pub enum CardColumn {
    AlwaysNeeded = 1,
    MayNeed,
    MaySet,
    MayClear,
    AlwaysSet,
    AlwaysCleared,
    AlwaysStands,
    MayFirstSet,
    MayFirstUntouched,
    MayLastUntouched,
    MayEndCleared,
    MayEndUnmentioned,
}

pub const COLUMNS: usize = 12;

pub const CARD_NUMBERS: usize = 1 + COLUMNS;

// In the flags, "an empty run exists" is bit 1, and the number of changeable facts stands from bit 8 on.
pub const EMPTY_FROM: u64 = 0x2;

pub const COUNT_FROM: u64 = 0x100;

// The flags: a run exists, an empty run exists, and the number of facts that some run sets or clears last.
pub fn flags(run: u64, empty: u64, set: u64, cleared: u64) -> u64
    ensures { result ≡ flags_of run empty set cleared }
{
    let changeable = count(union(set, cleared));
    run % 2 + EMPTY_FROM * (empty % 2) + COUNT_FROM * changeable as u64
}

// An "always" column: a run exists, and neither of the two rival outcomes is possible.
fn always(run: u64, rival: u64, untouched: u64) -> u64
    ensures { result ≡ always_of run rival untouched }
{
    without(run, union(rival, untouched))
}

// The numbers of a sequence, from its row of the outcome table.
pub fn numbers_of(row: Row) -> [u64; CARD_NUMBERS]
    ensures { result ≡ row_numbers (words_of row) }
{
    let last = row.last;
    let first = row.first;
    [
        flags(row.run, row.empty, last.present, last.absent),
        always(row.run, first.absent, first.untouched),
        first.present,
        last.present,
        last.absent,
        always(row.run, last.absent, last.untouched),
        always(row.run, last.present, last.untouched),
        always(row.run, row.cleared, row.unmentioned),
        first.absent,
        first.untouched,
        last.untouched,
        row.cleared,
        row.unmentioned,
    ]
}
