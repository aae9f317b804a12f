// The card of a list from the cards of its members: a block of 64 facts after the other, their columns folded from left to right, all facts of the
// block at once.
ghost use Rattle.std.specs.Prelude.{◌≡◌, ◌+◌, ◌*◌, ◌≤◌, ◌<◌, length};
ghost use Rattle.cards.specs.Layout.{column_words, card_words};
ghost use Rattle.cards.specs.Composed.{list_card};
ghost use Rattle.writer.specs.Block.{with_block};
ghost use Rattle.list.specs.Fold.{MembersIn, member_row, followed_row, list_row, kept_row, row_written, row_added};

use column::{BLOCK_FACTS, all_in};
use row::words::{ALL_BITS, Marks, Row};
use writer::block::{CARD_WORDS, COLUMN_WORDS, put_block};
use writer::card::{CardColumn, EMPTY_FROM, FLAGS, flags, numbers_of};

// The row of member `m` in a block, made of the columns that its card has of "some run". Of the first two words only the lowest bit says something.
fn member_row(cards: &[u64], block: u32, m: u32) -> Row
    requires { (card_words * m + card_words ≤ length cards.now) × (block < column_words) }
    ensures { result ≡ member_row cards.now block m }
{
    let card = &cards[CARD_WORDS * m as usize..];
    let word = |column: CardColumn| card[1 + COLUMN_WORDS * (column as usize - 1) + block as usize];
    Row {
        run: card[FLAGS],
        empty: card[FLAGS] / EMPTY_FROM,
        last: Marks {
            present: word(CardColumn::MaySet),
            absent: word(CardColumn::MayClear),
            untouched: word(CardColumn::MayLastUntouched),
        },
        first: Marks {
            present: word(CardColumn::MayNeed),
            absent: word(CardColumn::MayFirstSet),
            untouched: word(CardColumn::MayFirstUntouched),
        },
        cleared: word(CardColumn::MayEndCleared),
        unmentioned: word(CardColumn::MayEndUnmentioned),
    }
}

// The row of one list followed by another, of which a run is not yet known.
fn followed(x: Row, y: Row) -> Row
    ensures { result ≡ followed_row x y }
{
    Row {
        run: x.run & y.run,
        ..x.joined(y)
    }
}

// The row of the facts in `all`. A run exists for each of them.
fn kept_row(x: Row, all: u64) -> Row
    ensures { result ≡ kept_row x all }
{
    Row {
        run: all,
        empty: x.empty,
        last: x.last.kept(all),
        first: x.first.kept(all),
        cleared: x.cleared & all,
        unmentioned: x.unmentioned & all,
    }
}

// Writes a block of a card, by its row, of the facts in `all`. A card is a slice here, with its length in the contracts, so that a caller can lend a part
// of an area. The flags are those of the row where `all` is empty too.
fn write_row(x: Row, all: u64, block: u32, card: &mut [u64])
    requires { (length card.old ≡ card_words) × (block < column_words) }
    ensures { card.new ≡ with_block block (row_written x all) card.old }
{
    let kept = kept_row(x, all);
    let mut numbers = numbers_of(kept);
    numbers[FLAGS] = flags(x.run, x.empty, kept.last.present, kept.last.absent);
    put_block(&numbers, block, card);
}

// A list of members whose cards are all in an area.
#[derive(Clone, Copy)]
pub struct Members<'a> {
    pub cards: &'a [u64],
    pub list: &'a [u32],
    ghost within: { MembersIn cards.now list.now },
}

impl<'a> Members<'a> {
    // The row of the members in their order, in a block.
    fn row(&self, block: u32) -> Row
        requires { block < column_words }
        ensures { result ≡ list_row self.now.cards.now block self.now.list.now }
    {
        let mut x = Row::start(ALL_BITS);
        for m in self.list {
            x = followed(x, member_row(self.cards, block, *m));
        }
        x
    }

    // Adds a block to the card of the list. Where a member has no run the card stays.
    fn add_block(&self, facts: u64, block: u32, card: &mut [u64])
        requires { (length card.old ≡ card_words) × (block < column_words) }
        ensures { card.new ≡ row_added facts block (list_row self.now.cards.now block self.now.list.now) card.old }
    {
        let x = self.row(block);
        if x.run % 2 == 1 {
            write_row(x, all_in(facts, block), block, card);
        }
    }

    // Writes the card of the list: blank where a member has no run. The first block is written for the flags, and each other that has facts.
    pub fn compose(&self, facts: u64, card: &mut [u64])
        requires { length card.old ≡ card_words }
        ensures { card.new ≡ list_card facts self.now.cards.now self.now.list.now }
    {
        let blocks = facts
            .div_ceil(BLOCK_FACTS as u64)
            .clamp(1, COLUMN_WORDS as u64);
        card.fill(0);
        for block in 0..blocks as u32 {
            self.add_block(facts, block, card);
        }
    }
}
