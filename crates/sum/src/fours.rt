// The sums in four lanes: the first has words 0, 4, 8, .., the second words 1, 5, 9, .., and so the third and the fourth. Lanes do not wait
// for each other, and compile to vector code.
ghost use Rattle.std.specs.Prelude.{◌≡◌, ◌+◌, ◌*◌, ◌/◌, ◌%◌, ◌^◌, length, drop};
ghost use Rattle.sum.specs.Sums.{sums_after};
ghost use Rattle.sum.specs.Lanes.{wrapped, Joined};

use crate::sums::Sums;
use image::word::AT_ONCE;

// Sums wrap at 2^32.
const WRAP: u64 = 0x100000000;

// Four numbers added with wrap.
fn added(a: u32, b: u32, c: u32, d: u32) -> u32
    ensures { result ≡ (a + b + c + d) % 2 ^ 32 }
{
    a.wrapping_add(b).wrapping_add(c).wrapping_add(d)
}

// The sums of all words, from those of the lanes. Each time that the values of its lane take in a word, those of all words take it in four
// times, but the first time only from its own place among the four on: less 1 for the second lane, 2 for the third and 3 for the fourth.
fn joined(a: Sums, b: Sums, c: Sums, d: Sums) -> Sums
    ensures { Joined a b c d result }
{
    let values = added(a.values, b.values, c.values, d.values);
    let less = u64::from(b.running) + 2 * u64::from(c.running) + 3 * u64::from(d.running);
    Sums {
        running: added(a.running, b.running, c.running, d.running),
        values: ((4 * u64::from(values) + 6 * WRAP - less) % WRAP) as u32,
    }
}

// The sums of all words but the last, three at the most, that are no four.
pub fn sums_in_fours(words: &[u32]) -> Sums
    ensures { sums_after result (drop (length words.now / 4 * 4) words.now) ≡ sums_after (wrapped 0 0) words.now }
{
    let mut a = Sums::default();
    let mut b = Sums::default();
    let mut c = Sums::default();
    let mut d = Sums::default();
    for four in words.chunks_exact(AT_ONCE) {
        a = a.with_word(four[0]);
        b = b.with_word(four[1]);
        c = c.with_word(four[2]);
        d = d.with_word(four[3]);
    }
    joined(a, b, c, d)
}
