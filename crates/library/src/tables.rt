// Tables made of the parts of an accepted image, in lent areas: the steps' masks, and where each sequence stands. Both are written from the
// last word to the first, since a step's facts stand after its opener.
ghost use Rattle.std.specs.Prelude.{◌≡◌, ◌++◌, ◌+◌, ◌*◌, ◌≤◌, length, drop, MatchOption};
ghost use Rattle.library.specs.Library.{steps_from};
ghost use Rattle.library.specs.Tables.{mask_words, masks, places_from, with_word, with_row, NoPlaces, LastPlace, StepsAsked, SequencesAsked};

use crate::parts::none_opens;
use column::with_fact_in;
use image::answer::Head;
use image::word::{AT_ONCE, Kind, payload_of};

// The words of a step in the table of masks: one for what it needs, one for what it sets, one for what it clears.
pub const MASK_WORDS: usize = 3;

// What a step needs, sets and clears, a bit a fact of a block.
#[derive(Clone, Copy, Default)]
pub struct Masks {
    pub needs: u64,
    pub sets: u64,
    pub clears: u64,
}

// A fact word's fact added to the masks of the fact words after it, if it is one of the block's.
fn with_word(m: Masks, block: u32, w: u32) -> Masks
    ensures { result ≡ with_word block m w }
{
    let f = payload_of(w);
    if Kind::Needs.is_of(w) {
        Masks {
            needs: with_fact_in(m.needs, block, f),
            ..m
        }
    } else if Kind::Sets.is_of(w) {
        Masks {
            sets: with_fact_in(m.sets, block, f),
            ..m
        }
    } else {
        Masks {
            clears: with_fact_in(m.clears, block, f),
            ..m
        }
    }
}

// Writes a step's three words.
fn write_row(area: &mut [u64], step: u32, m: Masks)
    requires { mask_words * step + mask_words ≤ length area.old }
    ensures { area.new ≡ with_row area.old (mask_words * step) m }
{
    let at = MASK_WORDS * step as usize;
    area[at] = m.needs;
    area[at + 1] = m.sets;
    area[at + 2] = m.clears;
}

// Writes the masks of each step of the steps' part, of the facts of a block: three words a step. Words past them stay.
pub fn write_masks(h: Head, part: &[u32], block: u32, area: &mut [u64])
    requires { StepsAsked h part.now area.old }
    ensures { area.new ≡ masks block (steps_from part.now) ++ drop (mask_words * h.steps) area.old }
{
    let mut m = Masks::default();
    for w in part.iter().rev() {
        if Kind::Step.is_of(*w) {
            write_row(area, payload_of(*w), m);
            m = Masks::default();
        } else {
            m = with_word(m, block, *w);
        }
    }
}

// Passes words from index `end` back, by fours of which none opens a sequence.
fn pass_back(part: &[u32], end: usize) -> usize
    requires { end ≤ length part.now }
    ensures { NoPlaces part.now result end }
{
    let mut i = end;
    for four in part[..end].rchunks_exact(AT_ONCE) {
        if !none_opens(four, 0) {
            break;
        }
        i -= AT_ONCE;
    }
    i
}

// The index of the last word before index `end` that opens a sequence, if there is one.
fn last_opener(part: &[u32], end: usize) -> Option<usize>
    requires { end ≤ length part.now }
    ensures { MatchOption result (NoPlaces part.now 0 end) (LastPlace part.now end) }
{
    for i in (0..pass_back(part, end)).rev() {
        if Kind::Sequence.is_of(part[i]) {
            return Some(i);
        }
    }
    None
}

// Writes where each sequence of the sequences' part stands: the index of its opener. Words past them stay.
pub fn write_places(h: Head, part: &[u32], area: &mut [u32])
    requires { SequencesAsked h part.now area.old }
    ensures { area.new ≡ places_from 0 part.now ++ drop h.sequences area.old }
{
    let mut end = part.len();
    while let Some(at) = last_opener(part, end) {
        area[payload_of(part[at]) as usize] = at as u32;
        end = at;
    }
}
