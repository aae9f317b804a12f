// An image that the check accepts, with what its head counts: what every call hands on to its parts.
ghost use Rattle.std.specs.Prelude.{◌≡◌};
ghost use Rattle.rules.specs.Checked.{Accepts};
ghost use Rattle.library.specs.Library.{steps_part, sequences_part};

use crate::parts;
use image::answer::Head;

// The lent words and the head that the check found.
#[derive(Clone, Copy)]
pub struct Accepted<'a> {
    pub image: &'a [u32],
    pub head: Head,
    pub ghost accepted: { Accepts image.now head },
}

impl<'a> Accepted<'a> {
    // The sequences' part, from the first sequence.
    pub fn sequences_part(&self) -> &'a [u32]
        ensures { result.now ≡ sequences_part self.now.image.now }
    {
        parts::sequences_part(self.image)
    }

    // The steps' part, from the word after the head.
    pub fn steps_part(&self) -> &'a [u32]
        ensures { result.now ≡ steps_part self.now.image.now }
    {
        parts::steps_part(self.image, self.sequences_part().len())
    }
}
