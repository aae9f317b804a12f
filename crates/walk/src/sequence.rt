// The words of a sequence: walked from left to right, and back from one alternative to the one before it. An index is a plain number whose bound is
// in the contracts, here and in the readers above: a type for it would be made anew at each turn of a walk, to say the same.
ghost use Rattle.std.specs.Prelude.{◌≡◌, true, cond, ◌&&◌, ◌≤◌, length, get_or};
ghost use Rattle.std.specs.List.{take_while};
ghost use Rattle.image.specs.Word.{most_words, is_kind, is_entry};
ghost use Rattle.library.specs.Accepted.{HighEntry};
ghost use Rattle.walk.specs.Walk.{entries_end, AllBefore, opener_before};

use image::fours::fours_ahead;
use image::word::{Kind, is_entry, kind_of};

// How many alternatives a sequence has, and the index of the last one's opener.
#[derive(Clone, Copy)]
pub struct Alternatives {
    pub count: u32,
    pub last: usize,
}

// The word at an index; past the words 0, which is of no kind.
pub fn word_at(part: &[u32], i: usize) -> u32
    ensures { result ≡ get_or part.now i 0 }
{
    part.get(i).copied().unwrap_or(0)
}

// Whether a word of the sequences' part is an entry: no other word has a kind from 8 on there. It is one test of one bit.
pub fn part_entry(w: u32) -> bool
    requires { HighEntry w }
    ensures { result ≡ is_entry w }
{
    Kind::StepEntry.number() <= kind_of(w)
}

// Whether an entry is a check: of the kinds of entries that is the greatest.
pub fn is_check(w: u32) -> bool
    requires { is_entry w ≡ true }
    ensures { result ≡ is_kind 13 w }
{
    Kind::Check.number() <= kind_of(w)
}

// How many entries the words begin with.
fn entries_ahead(words: &[u32]) -> usize
    ensures { result ≡ length (take_while is_entry words.now) }
{
    words.iter().take_while(|w| is_entry(**w)).count()
}

// The index after the entries that stand from index `at` on.
pub fn entries_end(part: &[u32], at: usize) -> usize
    requires { at ≤ length part.now }
    ensures { result ≡ entries_end part.now at }
{
    at + entries_ahead(&part[at..])
}

// The same by fours, where a walk has left many entries.
pub fn rest_end(part: &[u32], at: usize) -> usize
    requires { at ≤ length part.now }
    ensures { result ≡ entries_end part.now at }
{
    entries_end(part, at + fours_ahead(&part[at..], is_entry))
}

// The value where the test holds, otherwise the other one. No way out and no work in either, so that it compiles to no branch.
pub fn select<T: Copy>(test: bool, x: T, other: T) -> T
    ensures { result ≡ cond test x other }
{
    if test { x } else { other }
}

// The alternatives that stand from index `at` on.
pub fn alternatives_of(part: &[u32], at: usize) -> Alternatives
    requires { (at ≤ length part.now) × (length part.now ≤ most_words) }
    ensures { AllBefore part.now at result }
{
    let mut count = 0;
    let mut last = at;
    for i in at..part.len() {
        let w = part[i];
        let opens = Kind::Alternative.is_of(w);
        if !(opens | is_entry(w)) {
            break;
        }
        count += u32::from(opens);
        last = select(opens, i, last);
    }
    Alternatives { count, last }
}

// The index of the last opener of an alternative before index `end`, 0 where there is none.
pub fn opener_before(part: &[u32], end: usize) -> usize
    requires { end ≤ length part.now }
    ensures { result ≡ opener_before part.now end }
{
    for i in (0..end).rev() {
        if Kind::Alternative.is_of(part[i]) {
            return i;
        }
    }
    0
}
