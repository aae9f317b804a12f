// The sequences that alternatives call, one after the other.
ghost use Rattle.std.specs.Prelude.{ℕ, ◌≡◌, ◌||◌, ◌≤◌, length, drop};
ghost use Rattle.image.specs.Word.{is_kind};
ghost use Rattle.library.specs.Calls.{calls_of};
ghost use Rattle.library.specs.Library.{alternatives_from};
ghost use Rattle.callers.specs.Callees.{calls_left};

use image::word::{Kind, payload_of};
use walk::sequence::entries_end;

// The calls that are left from an index of the words on.
#[derive(Clone, Copy)]
pub struct Callees<'a> {
    part: &'a [u32],
    at: usize,
}

// Whether a word that is no call belongs to the sequence: an alternative's opener, a step or a check. It is one test, since these follow each
// other in no order that processors could guess.
pub fn goes_on(w: u32) -> bool
    ensures { result ≡ (is_kind 7 w || is_kind 8 w || is_kind 13 w) }
{
    Kind::Alternative.is_of(w) | Kind::StepEntry.is_of(w) | Kind::Check.is_of(w)
}

impl<'a> Callees<'a> {
    // Those of the alternatives that stand from index `at` on.
    pub fn of(part: &'a [u32], at: usize) -> Callees<'a>
        requires { at ≤ length part.now }
        ensures same { result.part.now ≡ part.now }
        ensures calls { (d : ℕ) → calls_left part.now result.at d ≡ calls_of (alternatives_from (drop at part.now)) d }
    {
        Callees {
            part,
            at: entries_end(part, at),
        }
    }
}

impl Iterator for Callees<'_> {
    ghost use Rattle.callers.specs.Callees.{NextCallee, words_left};

    type Item = u32;

    ghost next_gives = { NextCallee };

    ghost remaining = { words_left };

    // The next call's sequence.
    fn next(&mut self) -> Option<u32> {
        let part = self.part;
        for i in self.at..part.len() {
            let w = part[i];
            if Kind::SequenceEntry.is_of(w) {
                self.at = i + 1;
                return Some(payload_of(w));
            }
            if !goes_on(w) {
                return None;
            }
        }
        None
    }
}
