// The 64-bit number that the C side gets of what the endless call finds.
ghost use Rattle.std.specs.Prelude.{◌≡◌};
ghost use Rattle.endless.specs.Answer.{endless_answer};

use image::answer::{Refusal, answer_number};

// The 64-bit answer that stands for what the endless call finds: the list's length, or the refusal.
#[tactic(auto, using(crate::proofs::Explaining::answer_is))]
pub fn endless_answer(found: Result<usize, Refusal>) -> u64
    ensures { result ≡ endless_answer found }
{
    answer_number(found)
}
