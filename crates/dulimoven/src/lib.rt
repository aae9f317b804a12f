// The calls that a simulator makes, with plain numbers and lent arrays. Crate `dulimoven_c` exports them to C, under these names. Each contract is
// one equation: what the caller sees, the number and the area after the call, is what the engine of specs/Engine gives back.
#![tactic(auto)]

ghost use Rattle.std.specs.Prelude.{◌≡◌};
ghost use Rattle.dulimoven.specs.Returned.{returned};
ghost use Rattle.dulimoven.specs.Engine.{engine, sealer};

use writer::block::CARD_WORDS;

// The check: the head's payload for an accepted image, or N × 2^32 + P for refusal N at position P.
pub fn dulimoven_check(image: &[u32]) -> u64
    ensures { result ≡ engine.check image.now }
{
    image::answer::answer_number(reader::check::check(image))
}

// The cards: C with the cards of all sequences written, 49 words a sequence, or N × 2^32 + P for refusal N at position P with the area as
// it was.
pub fn dulimoven_cards(image: &[u32], area: &mut [u64]) -> u64
    ensures { returned result area.new ≡ engine.cards image.now area.old }
{
    image::answer::answer_number(card::call::cards(image, area))
}

// The chain: the number of links with their words written, two a link, 0 for "none", or N × 2^32 + P for refusal N at position P; "none" and a
// refusal leave the area as it was.
pub fn dulimoven_chain(
    image: &[u32],
    sequence: u64,
    question: u64,
    fact: u64,
    area: &mut [u32],
) -> u64
    ensures { returned result area.new ≡ engine.chain image.now sequence question fact area.old }
{
    question::answer::chain_answer(chain::call::chain(image, sequence, question, fact, area))
}

// The card of a test list, worked out from F and the cards: 0 with the 49 words of the list's card written, or N × 2^32 for refusal N with
// the card as it was.
pub fn dulimoven_list(
    facts: u64,
    sequences: u64,
    cards: &[u64],
    list: &[u32],
    card: &mut [u64; CARD_WORDS],
) -> u64
    ensures { returned result card.new ≡ engine.list facts sequences cards.now list.now card.old }
{
    image::answer::answer_number(list::call::list(facts, sequences, cards, list, card))
}

// Why a sequence has no run: the length of the list of the sequences without a run that it reaches, with their numbers written, or N × 2^32 + P for
// refusal N at position P with the area as it was.
pub fn dulimoven_endless(image: &[u32], sequence: u64, area: &mut [u32]) -> u64
    ensures { returned result area.new ≡ engine.endless image.now sequence area.old }
{
    endless::answer::endless_answer(endless::call::endless(image, sequence, area))
}

// The sum word for an author's image: 0 with the sum word of the words before it in the last place, or 2^32 for refusal 1 with the image as it was.
pub fn dulimoven_seal(image: &mut [u32]) -> u64
    ensures { returned result image.new ≡ sealer image.old }
{
    seal::answer::seal_answer(seal::call::seal(image))
}
