// What the chain call is asked: a question of the library, or refusal 9, 10 or 11.
ghost use Rattle.std.specs.Prelude.{◌≡◌, ◌≤◌, ◌<◌};
ghost use Rattle.image.specs.Word.{most_sequences};
ghost use Rattle.question.specs.Asked.{range_told, question_asked, question_mark, mark_from, fact_block, fact_bit};

use column::BLOCK_FACTS;
use image::answer::{Head, Refusal};

// The last number of a question.
const LAST_QUESTION: u64 = 5;

// A side has three questions, one a mark. Those of the last side come first.
const SIDE_QUESTIONS: u64 = 3;

// What stands for "no rank" is so much above the number of sequences: a rank is at most that number, and one above a rank is told from "no
// rank" too. It is a number and no `Option`, since the definitions of ranks take it as one (`rank_in`), and a table has a word a rank.
pub const NO_RANK_ABOVE: u32 = 2;

// The marks: the two touches, "untouched", where only a rank counts, and any other: no item has that mark, and it is asked for as a touch is.
#[derive(Clone, Copy, PartialEq, Eq)]
pub enum Mark {
    Present,
    Absent,
    Untouched,
    Run,
    Other,
}

impl Mark {
    // The mark that the question with this number asks for.
    fn of(question: u64) -> Mark
        ensures { result ≡ question_mark question }
    {
        match question % SIDE_QUESTIONS {
            0 => Mark::Present,
            1 => Mark::Absent,
            _ => Mark::Untouched,
        }
    }
}

// The mark that a number stands for. Each number has one.
impl From<u32> for Mark {
    ghost from_gives = { λ n mark. mark ≡ mark_from n };

    fn from(n: u32) -> Mark {
        match n {
            0 => Self::Present,
            1 => Self::Absent,
            2 => Self::Untouched,
            3 => Self::Run,
            _ => Self::Other,
        }
    }
}

// The question: its side, the mark asked for there, the fact, and what stands for "no rank". The side is a Boolean, since definitions of theorems
// take it as one (`question_asked`, `step_mark`, `look_in`), and each use would turn an enum of sides into it.
#[derive(Clone, Copy)]
pub struct Asked {
    pub first: bool,
    pub mark: Mark,
    pub fact: u32,
    pub none: u32,
}

// Whether the sequence, the question and the fact are there, or the first of 9, 10 and 11 that applies.
pub fn in_range(h: Head, sequence: u64, question: u64, fact: u64) -> Result<(), Refusal>
    ensures { result ≡ range_told h sequence question fact }
{
    if u64::from(h.sequences) <= sequence {
        return Err(Refusal::Sequence);
    }
    if LAST_QUESTION < question {
        return Err(Refusal::Question);
    }
    if u64::from(h.facts) <= fact {
        return Err(Refusal::Fact);
    }
    Ok(())
}

impl Asked {
    // The question that has this number.
    pub fn new(h: Head, question: u64, fact: u64) -> Asked
        requires { (fact < h.facts) × (h.sequences ≤ most_sequences) }
        ensures { result ≡ question_asked h question fact }
    {
        Asked {
            first: SIDE_QUESTIONS <= question,
            mark: Mark::of(question),
            fact: fact as u32,
            none: h.sequences + NO_RANK_ABOVE,
        }
    }

    // The block of the fact asked about: the masks of that block say what a step does to the fact, and no other mask does.
    pub fn fact_block(self) -> u32
        ensures { result ≡ fact_block self }
    {
        self.fact / BLOCK_FACTS
    }

    // The bit that the fact asked about has in a word of its block.
    pub fn fact_bit(self) -> u32
        ensures { result ≡ fact_bit self }
    {
        self.fact % BLOCK_FACTS
    }
}
