// The sizes of the areas that a call makes its tables in. To clear areas for the largest image takes longer than all else that a call does with an
// everyday one, so there are small areas too, for images with few steps and few sequences. Each size has two constants by hand: they are const
// arguments, and such an argument cannot be computed from another one.
ghost use Rattle.std.specs.Prelude.{◌≡◌};
ghost use Rattle.tables.specs.Tables.{is_small};

use callers::sets::SET_WORDS;
use image::answer::Head;
use image::word::{MOST_SEQUENCES, MOST_STEPS};
use library::tables::MASK_WORDS;

// The steps and the sequences that small areas have room for.
pub const SMALL_STEPS: u32 = 64;

pub const SMALL_SEQUENCES: u32 = 32;

// The masks of each step.
pub const SMALL_MASKS: usize = MASK_WORDS * SMALL_STEPS as usize;

pub const MOST_MASKS: usize = MASK_WORDS * MOST_STEPS as usize;

// A place of each sequence, and a number in the order of visits.
pub const SMALL_PLACES: usize = SMALL_SEQUENCES as usize;

pub const MOST_PLACES: usize = MOST_SEQUENCES as usize;

// The set of the callers of each sequence.
pub const SMALL_CALLERS: usize = SET_WORDS * SMALL_SEQUENCES as usize;

pub const MOST_CALLERS: usize = SET_WORDS * MOST_SEQUENCES as usize;

// Whether small areas have the room.
pub fn is_small(h: Head) -> bool
    ensures { result ≡ is_small h }
{
    (h.steps <= SMALL_STEPS) & (h.sequences <= SMALL_SEQUENCES)
}
