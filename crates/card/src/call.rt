// The card call: refusals 1 to 8 and 13, or the cards of all sequences.
ghost use Rattle.std.specs.Prelude.{◌≡◌, ◌++◌, ◌*◌, drop};
ghost use Rattle.library.specs.Library.{library_of};
ghost use Rattle.cards.specs.Layout.{card_words};
ghost use Rattle.cards.specs.Card.{cards};
ghost use Rattle.card.specs.Answer.{CardsCalled};
ghost use Rattle.card.specs.Fill.{FillAsked, BlockAsked, BlockRoom, Room, block_filled};

use column::BLOCK_FACTS;
use image::answer::Refusal;
use library::checked::Accepted;
use outcome::table::{MOST_ROWS, MOST_STEP_ROWS, SMALL_ROWS, SMALL_STEP_ROWS, Tables};
use reader::check::check;
use tables::prepare::prepare;
use tables::size::{
    MOST_CALLERS, MOST_MASKS, MOST_PLACES, SMALL_CALLERS, SMALL_MASKS, SMALL_PLACES, is_small,
};
use writer::block::{CARD_WORDS, clear, write_blocks};

// Fills a block of the cards of an accepted image by way of its outcome table, in areas of those sizes.
fn fill_block<const MASKS: usize, const STEP_ROWS: usize, const ROWS: usize>(
    tables: &Tables,
    block: u32,
    area: &mut [u64],
)
    requires { BlockAsked tables.now.accepted.head tables.now.accepted.image.now block tables.now.places.now tables.now.callers.now tables.now.order.now area.old × BlockRoom tables.now.accepted.head MASKS STEP_ROWS ROWS }
    ensures { area.new ≡ block_filled (library_of tables.now.accepted.image.now) block tables.now.accepted.head.sequences area.old }
{
    let mut masks = [0u64; MASKS];
    let mut rows = [0u64; STEP_ROWS];
    let mut table = [0u64; ROWS];
    tables.outcome_table(block, &mut masks, &mut rows, &mut table);
    write_blocks(tables.accepted.head.sequences as usize, &table, block, area);
}

// Fills the cards of an accepted image, block by block, by way of the tables that all blocks have in common. Each is made in an area of its size. It stays
// a function of its own in the compiled code, so that a call that is refused takes no stack for these areas.
#[inline(never)]
fn fill_in<
    const PLACES: usize,
    const CALLERS: usize,
    const MASKS: usize,
    const STEP_ROWS: usize,
    const ROWS: usize,
>(accepted: &Accepted, area: &mut [u64])
    requires { FillAsked accepted.now.head accepted.now.image.now area.old × Room accepted.now.head PLACES CALLERS × BlockRoom accepted.now.head MASKS STEP_ROWS ROWS }
    ensures { area.new ≡ cards (library_of accepted.now.image.now) ++ drop (card_words * accepted.now.head.sequences) area.old }
{
    let mut places = [0u32; PLACES];
    let mut callers = [0u64; CALLERS];
    let mut order = [0usize; PLACES];
    prepare(accepted, &mut places, &mut callers, &mut order);
    clear(accepted.head.sequences as usize, area);
    let tables = Tables {
        accepted: *accepted,
        places: &places,
        callers: &callers,
        order: &order,
    };
    for block in 0..accepted.head.facts.div_ceil(BLOCK_FACTS) {
        fill_block::<MASKS, STEP_ROWS, ROWS>(&tables, block, area);
    }
}

// Fills the cards of an accepted image, where the area has room for them: nothing is written before that is known.
fn fill(accepted: &Accepted, area: &mut [u64]) -> Result<u32, Refusal>
    ensures { CardsCalled accepted.now.image.now area.old result area.new }
{
    let head = accepted.head;
    if area.len() < CARD_WORDS * head.sequences as usize {
        return Err(Refusal::CardArea);
    }
    if is_small(head) {
        fill_in::<SMALL_PLACES, SMALL_CALLERS, SMALL_MASKS, SMALL_STEP_ROWS, SMALL_ROWS>(
            accepted, area,
        );
    } else {
        fill_in::<MOST_PLACES, MOST_CALLERS, MOST_MASKS, MOST_STEP_ROWS, MOST_ROWS>(accepted, area);
    }
    Ok(head.sequences)
}

// The card call: the number of sequences, and their cards in the area, or the first refusal that applies; for every image and every area.
pub fn cards(image: &[u32], area: &mut [u64]) -> Result<u32, Refusal>
    ensures { CardsCalled image.now area.old result area.new }
{
    let head = check(image)?;
    fill(&Accepted { image, head }, area)
}
