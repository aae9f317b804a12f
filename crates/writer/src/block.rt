// The card writer: a block of 64 facts written into the cards of an area, word by word. A block is a plain number whose bound is in the contracts: it
// is an index of a column's words, and a type of it would be turned into that index at each use. Places in a card and in the area are worked out: of
// what is written through the parts that `chunks_mut` and the like lend only the length is known afterwards.
ghost use Rattle.std.specs.Prelude.{◌≡◌, ◌*◌, ◌<◌, ◌≤◌, ◌++◌, length, drop, replicate};
ghost use Rattle.cards.specs.Layout.{column_words, card_words};
ghost use Rattle.row.specs.Words.{row_words, words_of};
ghost use Rattle.writer.specs.Card.{row_numbers};
ghost use Rattle.writer.specs.Block.{with_count, with_block, cards_with};

use crate::card::{CARD_NUMBERS, COLUMNS, COUNT_FROM, FLAGS, numbers_of};
use image::word::MOST_SEQUENCES;
use row::words::Row;
use rows::table::row_at;

// The words of a column, a block in each: facts 0 to 63 first.
pub const COLUMN_WORDS: usize = 4;

pub const CARD_WORDS: usize = 1 + COLUMN_WORDS * COLUMNS;

// The words of all cards, for every image.
pub const MOST_CARD_WORDS: usize = CARD_WORDS * MOST_SEQUENCES as usize;

// The flags of a block with the count of the blocks before added to its own.
fn counted(before: u64, flags: u64) -> u64
    ensures { result ≡ with_count before flags }
{
    (before / COUNT_FROM * COUNT_FROM).wrapping_add(flags)
}

// Writes a block into a card: the flags, with the count so far, and the block's word of each column. The card is a slice and no array, since what is
// written to an array that is made of a part of the area is not known of the area.
pub fn put_block(numbers: &[u64; CARD_NUMBERS], block: u32, card: &mut [u64])
    requires { (length card.old ≡ card_words) × (block < column_words) }
    ensures { card.new ≡ with_block block numbers.now card.old }
{
    card[FLAGS] = counted(card[FLAGS], numbers[FLAGS]);
    for (j, word) in numbers[1..].iter().enumerate() {
        card[1 + COLUMN_WORDS * j + block as usize] = *word;
    }
}

// Writes a block into a sequence's own card, from its row of the block's outcome table.
pub fn write_block(row: Row, block: u32, card: &mut [u64])
    requires { (length card.old ≡ card_words) × (block < column_words) }
    ensures { card.new ≡ with_block block (row_numbers (words_of row)) card.old }
{
    put_block(&numbers_of(row), block, card);
}

// Writes a block into the cards of the first `n` sequences, sequence 0 first. Words past them stay.
pub fn write_blocks(n: usize, table: &[u64], block: u32, area: &mut [u64])
    requires { (row_words * n ≤ length table.now) × (card_words * n ≤ length area.old) × (block < column_words) }
    ensures { area.new ≡ cards_with block table.now area.old 0 n ++ drop (card_words * n) area.old }
{
    for c in 0..n {
        let at = CARD_WORDS * c;
        write_block(row_at(table, c), block, &mut area[at..at + CARD_WORDS]);
    }
}

// Clears the cards of the first `n` sequences. Words past them stay.
pub fn clear(n: usize, area: &mut [u64])
    requires { card_words * n ≤ length area.old }
    ensures { area.new ≡ replicate (card_words * n) 0 ++ drop (card_words * n) area.old }
{
    area[..CARD_WORDS * n].fill(0);
}
