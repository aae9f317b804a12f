// The two parts of an accepted image: the steps' part and the sequences' part, each a slice that begins where they begin.
ghost use Rattle.std.specs.Prelude.{◌≡◌, true, not, ◌+◌, ◌≤◌, length};
ghost use Rattle.image.specs.Word.{is_kind};
ghost use Rattle.rules.specs.Checked.{between};
ghost use Rattle.library.specs.Library.{before_sequences, steps_part, sequences_part};
ghost use Rattle.library.specs.Seam.{NoneOpens};

use image::fours::{all_four, fours_ahead};
use image::word::Kind;

// Whether a word opens no sequence.
fn opens_none(w: u32) -> bool
    ensures { result ≡ not (is_kind 6 w) }
{
    !Kind::Sequence.is_of(w)
}

// Whether none of the four words from index `at` on opens a sequence.
pub fn none_opens(words: &[u32], at: usize) -> bool
    requires { at + 4 ≤ length words.now }
    ensures { result ≡ true → NoneOpens words.now at }
{
    all_four(words, at, opens_none)
}

// How many words stand before the first sequence. By fours, and then one by one.
fn first_sequence(words: &[u32]) -> usize
    ensures at { result ≡ length (before_sequences words.now) }
    ensures within { result ≤ length words.now }
{
    for i in fours_ahead(words, opens_none)..words.len() {
        if Kind::Sequence.is_of(words[i]) {
            return i;
        }
    }
    words.len()
}

// The words between head and sum word. These three ask for two words alone, which is less than that the check accepts (`checked::Accepted`).
fn words_between(image: &[u32]) -> &[u32]
    requires { 2 ≤ length image.now }
    ensures { result.now ≡ between image.now }
{
    let last = image.len() - 1;
    &image[1..last]
}

// The sequences' part, from the first sequence.
pub fn sequences_part(image: &[u32]) -> &[u32]
    requires { 2 ≤ length image.now }
    ensures { result.now ≡ sequences_part image.now }
{
    let words = words_between(image);
    let at = first_sequence(words);
    &words[at..]
}

// The steps' part, from the word after the head: what is left where the sequences' part has so many words.
pub fn steps_part(image: &[u32], after: usize) -> &[u32]
    requires { (2 ≤ length image.now) × (after ≡ length (sequences_part image.now)) }
    ensures { result.now ≡ steps_part image.now }
{
    let words = words_between(image);
    let at = words.len() - after;
    &words[..at]
}
