// Words looked at four at a time.
ghost use Rattle.std.specs.Prelude.{◌≡◌, ℕ, true, false, ◌+◌, ◌<◌, ◌≤◌, length, get_or};
ghost use Rattle.image.specs.Fours.{AllFour, SomeOfFour};

use crate::word::AT_ONCE;

// Whether each of the four words from index `at` on passes a test. All four are tested, with no way out between them, so that it compiles to
// vector code.
pub fn all_four<F: Fn(u32) -> bool>(words: &[u32], at: usize, test: F) -> bool
    requires room { at + 4 ≤ length words.now }
    requires callable { F.IsAlwaysCallable test }
    ensures pass { result ≡ true → AllFour (λ w. F.post test w true) words.now at }
    ensures fail { result ≡ false → SomeOfFour (λ w. F.post test w false) words.now at }
{
    let a = test(words[at]);
    let b = test(words[at + 1]);
    let c = test(words[at + 2]);
    let d = test(words[at + 3]);
    a & b & c & d
}

// How many words stand in the fours at the front that pass a test, each word of them.
pub fn fours_ahead<F: Fn(u32) -> bool>(words: &[u32], test: F) -> usize
    requires callable { F.IsAlwaysCallable test }
    ensures within { result ≤ length words.now }
    ensures pass { (i : ℕ) → i < result → F.post test (get_or words.now i 0) true }
{
    let mut passed = 0;
    for four in words.chunks_exact(AT_ONCE) {
        if !all_four(four, 0, &test) {
            break;
        }
        passed += AT_ONCE;
    }
    passed
}
