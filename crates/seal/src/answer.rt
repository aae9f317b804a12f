// The 64-bit number that the C side gets of what the seal call comes to.
ghost use Rattle.std.specs.Prelude.{◌≡◌};
ghost use Rattle.seal.specs.Answer.{seal_answer};

use image::answer::{Refusal, answer_number};

// The 64-bit answer that stands for what the seal call comes to: 0, or the refusal.
pub fn seal_answer(found: Result<(), Refusal>) -> u64
    ensures { result ≡ seal_answer found }
{
    answer_number(found)
}
