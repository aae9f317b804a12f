// The seal call: refusal 1, or the sum word in the last place.
ghost use Rattle.std.specs.Prelude.{◌≡◌};
ghost use Rattle.seal.specs.Answer.{sum_word, SealCalled};

use image::answer::Refusal;
use image::word::{FEWEST_WORDS, Kind, MOST_WORDS};
use sum::payload::sum_of;

// The sum word after these words.
fn sum_word(earlier: &[u32]) -> u32
    ensures { result ≡ sum_word earlier.now }
{
    Kind::Sum.word(sum_of(earlier))
}

// The seal call: what it answers, and the words of the image after it. The last word is written and not read.
pub fn seal(image: &mut [u32]) -> Result<(), Refusal>
    ensures { SealCalled image.old result image.new }
{
    if !(FEWEST_WORDS..=MOST_WORDS).contains(&image.len()) {
        return Err(Refusal::Length);
    }
    let (last, earlier) = image.split_last_mut().ok_or(Refusal::Length)?;
    *last = sum_word(earlier);
    Ok(())
}
