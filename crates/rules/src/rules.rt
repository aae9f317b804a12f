// The rules for a word between head and sum word: refusals 4, 5, 6 and 13.
ghost use Rattle.std.specs.Prelude.{◌≡◌, ◌+◌, ◌<◌, ◌≤◌, true, length, take, slice_index};
ghost use Rattle.column.specs.Sets.{in_column};
ghost use Rattle.image.specs.Word.{most_words};
ghost use Rattle.rules.specs.Rules.{sets_of, may_stand, payload_right, in_order, clears_unset, fault_at};
ghost use Rattle.rules.specs.Quick.{entry_right, alternative_right, body_right, inside_right, Counts, step_right, sequence_right, passed, with_last, seen, up_to};

use image::answer::{Head, Refusal};
use image::word::{ALTERNATIVE_WORD, Kind, is_entry, is_fact, payload_of};

// What is carried of the words before a word: how many steps and sequences they open, and the word right before it. What the step sets
// that they opened last is looked up in its words where refusal 13 asks for it.
#[derive(Clone, Copy)]
pub struct Earlier {
    pub steps: u32,
    pub sequences: u32,
    pub last: u32,
}

impl Earlier {
    // What is carried of the words up to and with `w`.
    pub fn past(self, w: u32) -> Earlier
        requires { (self.steps + 1 < 4294967296) × (self.sequences + 1 < 4294967296) }
        ensures { result ≡ passed self w }
    {
        Earlier {
            steps: self.steps + u32::from(Kind::Step.is_of(w)),
            sequences: self.sequences + u32::from(Kind::Sequence.is_of(w)),
            last: w,
        }
    }

    // What is carried further on, where words that open neither a step nor a sequence follow, the last of them `last`.
    pub fn further_on(self, last: u32) -> Earlier
        ensures { result ≡ with_last self last }
    {
        Earlier { last, ..self }
    }

    // Refusal 4: whether a word of this kind may stand here.
    fn may_stand(self, h: Head, w: u32) -> bool
        ensures { result ≡ may_stand h (seen self 0) w }
    {
        match Kind::of(w) {
            Some(Kind::Needs | Kind::Sets | Kind::Clears) => Kind::Step.is_of(self.last)
                | is_fact(self.last),
            Some(Kind::Step) => self.sequences == 0,
            Some(Kind::Sequence) => h.steps <= self.steps,
            Some(Kind::Alternative) => 0 < self.sequences,
            Some(Kind::StepEntry | Kind::SequenceEntry | Kind::Check) => {
                Kind::Alternative.is_of(self.last) | is_entry(self.last)
            }
            _ => false,
        }
    }

    // Refusal 5: whether the payload keeps the rule of its kind.
    fn payload_right(self, h: Head, w: u32) -> bool
        ensures { result ≡ payload_right h (seen self 0) w }
    {
        let p = payload_of(w);
        match Kind::of(w) {
            Some(Kind::Step) => (p == self.steps) & (p < h.steps),
            Some(Kind::Sequence) => (p == self.sequences) & (p < h.sequences),
            Some(Kind::StepEntry) => p < h.steps,
            Some(Kind::SequenceEntry) => p < h.sequences,
            Some(Kind::Needs | Kind::Sets | Kind::Clears | Kind::Check) => p < h.facts,
            Some(Kind::Alternative) => p == 0,
            _ => true,
        }
    }

    // Refusal 6: whether a fact word is greater than the fact word right before it.
    fn in_order(self, w: u32) -> bool
        ensures { result ≡ in_order (seen self 0) w }
    {
        !(is_fact(w) & is_fact(self.last)) | (self.last < w)
    }

    // Whether a word of kind 7 is right.
    fn alternative_right(self, w: u32) -> bool
        ensures { result ≡ alternative_right self w }
    {
        (w == ALTERNATIVE_WORD) & (0 < self.sequences)
    }

    // Whether a word of kind 7, 8, 9 or 13 is right after a word `last`.
    pub fn body_right(self, h: Head, last: u32, w: u32) -> bool
        ensures { result ≡ body_right h self last w }
    {
        entry_right(h, last, w) | self.alternative_right(w)
    }

    // Whether a word of kind 5 is right.
    pub fn step_right(self, h: Head, w: u32) -> bool
        ensures { result ≡ step_right h self w }
    {
        let p = payload_of(w);
        Kind::Step.is_of(w) & (self.sequences == 0) & (p == self.steps) & (p < h.steps)
    }

    // Whether a word of kind 6 is right.
    pub fn sequence_right(self, h: Head, w: u32) -> bool
        ensures { result ≡ sequence_right h self w }
    {
        let p = payload_of(w);
        Kind::Sequence.is_of(w)
            & (h.steps <= self.steps)
            & (p == self.sequences)
            & (p < h.sequences)
    }

    // The first refusal of 4, 5, 6 and 13 that the word at index `i` meets, by each rule, in a part that begins at position `at`.
    pub fn first_fault(self, h: Head, at: usize, part: &[u32], i: usize) -> Option<Refusal>
        requires { (i < length part.now) × (at + length part.now ≤ most_words) }
        ensures { result ≡ fault_at h (up_to part.now self i) (at + i) (slice_index part.now i) }
    {
        let w = part[i];
        let p = (at + i) as u32;
        if !self.may_stand(h, w) {
            return Some(Refusal::Kind(p));
        }
        if !self.payload_right(h, w) {
            return Some(Refusal::Payload(p));
        }
        if !self.in_order(w) {
            return Some(Refusal::FactOrder(p));
        }
        if !clears_unset(part, i) {
            return Some(Refusal::SetAndCleared(p));
        }
        None
    }
}

// Whether a word of the step sets the fact `f`, among these words: they are looked at from the last one back to the step's opener.
fn set_before(words: &[u32], f: u32) -> bool
    ensures { result ≡ in_column (sets_of 0 words.now) f }
{
    for &w in words.iter().rev() {
        if Kind::Sets.is_of(w) & (payload_of(w) == f) {
            return true;
        }
        if Kind::Step.is_of(w) {
            return false;
        }
    }
    false
}

// Refusal 13: whether the word at index `i`, if it is a clear word, names a fact that no word of its step sets before it.
fn clears_unset(part: &[u32], i: usize) -> bool
    requires { i < length part.now }
    ensures { result ≡ clears_unset (sets_of 0 (take i part.now)) (slice_index part.now i) }
{
    let w = part[i];
    !Kind::Clears.is_of(w) || !set_before(&part[..i], payload_of(w))
}

// Whether a word of kind 8, 9 or 13 is right: an entry after a kind 7 or another entry that names what the head counts.
fn entry_right(h: Head, last: u32, w: u32) -> bool
    ensures { result ≡ entry_right h last w }
{
    let p = payload_of(w);
    (Kind::Alternative.is_of(last) | is_entry(last))
        & ((Kind::StepEntry.is_of(w) & (p < h.steps))
            | (Kind::SequenceEntry.is_of(w) & (p < h.sequences))
            | (Kind::Check.is_of(w) & (p < h.facts)))
}

// Whether a word of kind 7, 8, 9 or 13 is right after another such word. Counts below 2^28 leave a kind's payloads in one range of numbers: less the
// kind's first word, an entry is its payload. That they are below it is asked here and no fact of every `Head`, since a head is also what is read off any
// word (`head_of`).
pub fn inside_right(h: Head, w: u32) -> bool
    requires { Counts h }
    ensures { result ≡ true → inside_right h w ≡ true }
{
    let step = w.wrapping_sub(Kind::StepEntry.word(0));
    let sequence = w.wrapping_sub(Kind::SequenceEntry.word(0));
    let check = w.wrapping_sub(Kind::Check.word(0));
    (step < h.steps) | (sequence < h.sequences) | (check < h.facts) | (w == ALTERNATIVE_WORD)
}
