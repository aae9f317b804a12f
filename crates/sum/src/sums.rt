// What a word counts as, and the two sums, word by word.
ghost use Rattle.std.specs.Prelude.{◌≡◌};
ghost use Rattle.image.specs.Word.{counts_as};
ghost use Rattle.sum.specs.Sums.{with_word, sums_after};

use image::word::PAYLOADS;

// A word's kind counts so many times.
const KIND_COUNTS: u32 = 1024;

// What a word counts as: its payload plus 1,024 times its kind.
fn counts_as(w: u32) -> u32
    ensures { result ≡ counts_as w }
{
    w % PAYLOADS + KIND_COUNTS * (w / PAYLOADS)
}

// The running sum of what words count as, and the sum of its values after each of them, both with wrap at 2^32; of no word, 0 and 0.
#[derive(Clone, Copy, Default)]
pub struct Sums {
    pub running: u32,
    pub values: u32,
}

impl Sums {
    // The sums with one word more.
    pub fn with_word(self, w: u32) -> Sums
        ensures { result ≡ with_word self w }
    {
        let running = self.running.wrapping_add(counts_as(w));
        Sums {
            running,
            values: self.values.wrapping_add(running),
        }
    }

    // The sums with all these words more.
    pub fn with_words(self, words: &[u32]) -> Sums
        ensures { result ≡ sums_after self words.now }
    {
        words.iter().fold(self, |sums, w| sums.with_word(*w))
    }
}
