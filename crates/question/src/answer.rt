// What the chain call answers with, and the 64-bit number that the C side gets.
ghost use Rattle.std.specs.Prelude.{◌≡◌};
ghost use Rattle.question.specs.Answer.{chain_answer, link_count, in_room, by_rank, shown_links};

use crate::asked::{Asked, Mark};
use crate::words::LINK_WORDS;
use image::answer::Refusal;

// How many links a chain has. It is a struct of its own, and the answer below an enum of its own and no `Result<Option<u32>, Refusal>`, since document 01
// fixes their form ("Which form belongs where"): "an answer enum whose cases carry a link count struct or a refusal enum with its position".
#[derive(Clone, Copy)]
pub struct Links {
    pub count: u32,
}

// What the chain call finds: a chain of so many links is written, no run has the outcome, or the first refusal that applies.
#[derive(Clone, Copy)]
pub enum Chained {
    Shown(Links),
    None,
    Refused(Refusal),
}

// The 64-bit answer that stands for what the chain call finds: the number of links, 0 for "none", or the refusal.
pub fn chain_answer(found: Chained) -> u64
    ensures { result ≡ chain_answer found }
{
    match found {
        Chained::Shown(links) => u64::from(links.count),
        Chained::None => 0,
        Chained::Refused(r) => u64::from(r),
    }
}

// The reply about a chain with so many links, in an area of so many words.
fn in_room(room: usize, count: u32) -> Chained
    ensures { result ≡ in_room room count }
{
    if room < LINK_WORDS * count as usize {
        return Chained::Refused(Refusal::ChainArea);
    }
    Chained::Shown(Links { count })
}

impl Asked {
    // How many links answer the question about a sequence with this rank.
    fn link_count(self, rank: u32) -> u32
        ensures { result ≡ link_count self rank }
    {
        match self.mark {
            Mark::Untouched => 1,
            _ => rank,
        }
    }

    // The reply about a sequence with this rank, in an area of so many words.
    pub fn answer_by_rank(self, rank: u32, room: usize) -> Chained
        ensures { result ≡ by_rank self rank room }
    {
        if self.none <= rank {
            return Chained::None;
        }
        in_room(room, self.link_count(rank))
    }

    // How many links are written there: none where the reply is another.
    pub fn shown_links(self, rank: u32, room: usize) -> u32
        ensures { result ≡ shown_links self rank room }
    {
        match self.answer_by_rank(rank, room) {
            Chained::Shown(links) => links.count,
            _ => 0,
        }
    }
}
