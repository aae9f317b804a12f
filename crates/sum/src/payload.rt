// The payload of the sum word, and whether a word is that sum word.
ghost use Rattle.std.specs.Prelude.{◌≡◌};
ghost use Rattle.image.specs.Word.{ordered_sum, sum_right};

use crate::fours::sums_in_fours;
use image::word::{AT_ONCE, Kind, PAYLOADS};

// The payload of the sum word after these words.
pub fn sum_of(words: &[u32]) -> u32
    ensures { result ≡ ordered_sum words.now }
{
    let (_, rest) = words.as_chunks::<AT_ONCE>();
    sums_in_fours(words).with_words(rest).values % PAYLOADS
}

// Whether `w` is the sum word after the words `earlier`.
pub fn sum_right(earlier: &[u32], w: u32) -> bool
    ensures { result ≡ sum_right earlier.now w }
{
    let s = sum_of(earlier);
    Kind::Sum.is_of(w) & (w % PAYLOADS == s)
}
