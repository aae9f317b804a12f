// What the calls answer with: the head, the refusals of document 01, and the 64-bit numbers that the C side gets.
ghost use Rattle.std.specs.Prelude.{ℕ, ◌≡◌, ◌^◌, ◌<◌};
ghost use Rattle.image.specs.Answer.{refusal_number, refusal_position, refusal_answer, head_payload, answer_number};

use crate::word::{SEQUENCES_FROM, STEPS_FROM};

// A refusal's number stands above its position, which is below 2^32.
const POSITIONS: u64 = 0x100000000;

// What the head counts: facts (F), steps (A) and sequences (C).
#[derive(Clone, Copy)]
pub struct Head {
    pub facts: u32,
    pub steps: u32,
    pub sequences: u32,
}

// The refusals of document 01, 1 to 12 in its order, and those that requests add. The number that a case carries is the position of a word.
#[derive(Clone, Copy)]
pub enum Refusal {
    // 1. fewer than 2 or more than 8,192 words
    Length,
    // 2. the last word is no sum word, or has another payload than the rule gives
    SumWord(u32),
    // 3. the first word breaks the rule for the head
    HeadWord,
    // 4. a kind that may not stand there
    Kind(u32),
    // 5. a payload that breaks its rule
    Payload(u32),
    // 6. a fact word that is not greater than the fact word before it
    FactOrder(u32),
    // 7. fewer steps or sequences than the head counts
    Missing(u32),
    // 8. the card area is too short
    CardArea,
    // 9. the sequence asked about is not below C
    Sequence,
    // 10. the question is above 5
    Question,
    // 11. the fact asked about is not below F
    Fact,
    // 12. a chain exists but has more words than the chain area
    ChainArea,
    // 13. a clear word for a fact that an earlier word of the same step sets
    SetAndCleared(u32),
    // 14. a list of more than 256 sequences
    ListLength,
    // 15. a member of the list is not below C
    Member,
    // 16. the sequence asked about has a run
    HasRun,
    // 17. the list of sequences without a run is longer than the area
    ListArea,
}

impl Refusal {
    // The number of a refusal, as the documents give it.
    pub fn number(self) -> u64
        ensures { (result ≡ refusal_number self) × (result < 2 ^ 32) }
    {
        match self {
            Refusal::Length => 1,
            Refusal::SumWord(_) => 2,
            Refusal::HeadWord => 3,
            Refusal::Kind(_) => 4,
            Refusal::Payload(_) => 5,
            Refusal::FactOrder(_) => 6,
            Refusal::Missing(_) => 7,
            Refusal::CardArea => 8,
            Refusal::Sequence => 9,
            Refusal::Question => 10,
            Refusal::Fact => 11,
            Refusal::ChainArea => 12,
            Refusal::SetAndCleared(_) => 13,
            Refusal::ListLength => 14,
            Refusal::Member => 15,
            Refusal::HasRun => 16,
            Refusal::ListArea => 17,
        }
    }

    // The word position of a refusal.
    pub fn position(self) -> u32
        ensures { result ≡ refusal_position self }
    {
        match self {
            Refusal::SumWord(p)
            | Refusal::Kind(p)
            | Refusal::Payload(p)
            | Refusal::FactOrder(p)
            | Refusal::Missing(p)
            | Refusal::SetAndCleared(p) => p,
            _ => 0,
        }
    }
}

// The 64-bit answer that stands for a refusal on the C side.
impl From<Refusal> for u64 {
    ghost from_gives = { λ refusal n. n ≡ refusal_answer refusal };

    fn from(refusal: Refusal) -> u64 {
        refusal.number() * POSITIONS + u64::from(refusal.position())
    }
}

// What the check finds: the head of a library, or the first refusal that applies.
pub type Checked = Result<Head, Refusal>;

// What a call finds where it refuses nothing: the number that stands for it on the C side.
pub trait Found {
    ghost number: { Self → ℕ };

    fn number(self) -> u64
        ensures { result ≡ number self };
}

// Nothing but that the work is done.
impl Found for () {
    ghost number = { λ _. 0 };

    fn number(self) -> u64 {
        0
    }
}

// How many there are.
impl Found for u32 {
    ghost number = { λ count. count };

    fn number(self) -> u64 {
        u64::from(self)
    }
}

impl Found for usize {
    ghost number = { λ count. count };

    fn number(self) -> u64 {
        self as u64
    }
}

// The payload of a head.
impl Found for Head {
    ghost number = { head_payload };

    fn number(self) -> u64 {
        u64::from(self.facts)
            + u64::from(self.steps) * u64::from(STEPS_FROM)
            + u64::from(self.sequences) * u64::from(SEQUENCES_FROM)
    }
}

// The 64-bit answer that stands for what a call comes to: the number of what it finds, or the refusal.
pub fn answer_number<T: Found>(answer: Result<T, Refusal>) -> u64
    ensures { result ≡ answer_number T.number answer }
{
    match answer {
        Ok(found) => found.number(),
        Err(refusal) => u64::from(refusal),
    }
}
