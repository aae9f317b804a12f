// A walk over the entries of an alternative that an entry may end, as every reader of an alternative by ranks is.
ghost use Rattle.std.specs.Prelude.{◌≡◌, ℕ, true, ◌≤◌, ◌<◌, length, get_or};
ghost use Rattle.image.specs.Word.{is_entry};
ghost use Rattle.library.specs.Accepted.{HighEntry};
ghost use Rattle.walk.specs.Entries.{Walked};

use crate::sequence::part_entry;

// What a walk over the entries of an alternative comes to, and the index at which it ended.
#[derive(Clone, Copy)]
pub struct Ended<T> {
    pub value: T,
    pub ended: usize,
}

// Walks over the entries that stand from index `at` on. `turn` says what is known with one entry more, or leaves the walk at it.
// The value is what is known at their end, or, where the walk was left at an entry, an error with what was known before that one.
pub fn walk_entries<A: Copy, F: Fn(A, u32) -> Option<A>>(
    part: &[u32],
    at: usize,
    start: A,
    turn: F,
) -> Ended<Result<A, A>>
    requires inside { at ≤ length part.now }
    requires high { (i : ℕ) → i < length part.now → HighEntry (get_or part.now i 0) }
    requires turns { (a : A) (i : ℕ) → i < length part.now → is_entry (get_or part.now i 0) ≡ true → F.pre turn a (get_or part.now i 0) }
    ensures { Walked (λ a w r. F.post turn a w r) part.now start at result.value result.ended }
{
    let mut known = start;
    for i in at..part.len() {
        let w = part[i];
        if !part_entry(w) {
            return Ended {
                value: Ok(known),
                ended: i,
            };
        }
        match turn(known, w) {
            Some(next) => known = next,
            None => {
                return Ended {
                    value: Err(known),
                    ended: i,
                };
            }
        }
    }
    Ended {
        value: Ok(known),
        ended: part.len(),
    }
}
