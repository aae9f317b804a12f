// The words of a link.
ghost use Rattle.std.specs.Prelude.{◌≡◌, ◌+◌, ◌^◌, ◌≤◌, ◌<◌, length, set};
ghost use Rattle.image.specs.Word.{most_words};
ghost use Rattle.chains.specs.Link.{choice_word};

use image::word::{Kind, PAYLOADS};

// How many words a link has.
pub const LINK_WORDS: usize = 2;

// The first word of a link, which has the sequence from bit 0 on and the alternative from bit 8 on.
const CHOICE_WORD: u32 = Kind::Choice as u32 * PAYLOADS;

const ALTERNATIVE_FROM: u32 = 0x100;

// The second word, which has the position of an entry, or says that there is none.
pub const POSITION_WORD: u32 = Kind::Position as u32 * PAYLOADS;

pub const UNTOUCHED_WORD: u32 = Kind::Untouched as u32 * PAYLOADS;

// Writes the two words of a link: "kind 10 (bits 0 to 7 the sequence, bits 8 to 20 the alternative, the rest 0)", and the word for its place.
pub fn put_link(area: &mut [u32], at: usize, c: u32, alternative: u32, place: u32)
    requires { (at + 2 ≤ length area.old) × (c < 2 ^ 28) × (alternative ≤ most_words) }
    ensures { area.new ≡ set (set area.old at (choice_word c alternative)) (at + 1) place }
{
    area[at] = CHOICE_WORD + (alternative * ALTERNATIVE_FROM + c);
    area[at + 1] = place;
}
