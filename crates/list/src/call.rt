// The list call: refusals 8, 14 and 15, or the list's card.
ghost use Rattle.std.specs.Prelude.{◌≡◌, leb};
ghost use Rattle.std.specs.List.{list_any};
ghost use Rattle.list.specs.Answer.{ListCalled};

use crate::compose::Members;
use image::answer::Refusal;
use writer::block::CARD_WORDS;

// The most sequences that a list has.
pub const MOST_LIST: usize = 256;

// Whether a member of the list is not below the number of sequences.
fn member_past(sequences: u64, list: &[u32]) -> bool
    ensures { result ≡ list_any (λ m. leb sequences m) list.now }
{
    list.iter().any(|m| sequences <= u64::from(*m))
}

// The list call: what it answers, and the words of the list's card after it. Nothing is written before the list is known to be right.
pub fn list(
    facts: u64,
    sequences: u64,
    cards: &[u64],
    list: &[u32],
    card: &mut [u64; CARD_WORDS],
) -> Result<(), Refusal>
    ensures { ListCalled facts sequences cards.now list.now card.old result card.new }
{
    if ((cards.len() / CARD_WORDS) as u64) < sequences {
        return Err(Refusal::CardArea);
    }
    if MOST_LIST < list.len() {
        return Err(Refusal::ListLength);
    }
    if member_past(sequences, list) {
        return Err(Refusal::Member);
    }
    Members { cards, list }.compose(facts, card);
    Ok(())
}
