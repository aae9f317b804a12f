// Words: kind and payload, and the head.
ghost use Rattle.std.specs.Prelude.{◌+◌, ◌*◌, ◌^◌, ◌<◌, ◌≡◌, ◌≢◌, MatchOption};
ghost use Rattle.image.specs.Kinds.{kind_number};
ghost use Rattle.image.specs.Word.{kind, payload, is_fact, is_entry, is_kind, head_of, head_right};
ghost use Rattle.image.specs.declared.word.Kind.{Kind};

use crate::answer::Head;

// A payload is below this, 2^28; the kind is what stands above it.
pub const PAYLOADS: u32 = 0x10000000;

// The kinds of words, of an image and of a chain's links, by their numbers.
#[derive(Clone, Copy, PartialEq, Eq)]
pub enum Kind {
    Head = 1,
    Needs = 2,
    Sets = 3,
    Clears = 4,
    Step = 5,
    Sequence = 6,
    Alternative = 7,
    StepEntry = 8,
    SequenceEntry = 9,
    Choice = 10,
    Position = 11,
    Untouched = 12,
    Check = 13,
    Sum = 15,
}

impl Kind {
    // The number that stands in bits 31 to 28 of a word of this kind.
    pub fn number(self) -> u32
        ensures { (result ≡ kind_number self) × (result < 16) }
    {
        self as u32
    }

    // The kind of a word, or none where no kind has its number.
    pub fn of(w: u32) -> Option<Kind>
        ensures { MatchOption result ((k : Kind) → kind_number k ≢ kind w) (λ k. kind_number k ≡ kind w) }
    {
        match w / PAYLOADS {
            1 => Some(Kind::Head),
            2 => Some(Kind::Needs),
            3 => Some(Kind::Sets),
            4 => Some(Kind::Clears),
            5 => Some(Kind::Step),
            6 => Some(Kind::Sequence),
            7 => Some(Kind::Alternative),
            8 => Some(Kind::StepEntry),
            9 => Some(Kind::SequenceEntry),
            10 => Some(Kind::Choice),
            11 => Some(Kind::Position),
            12 => Some(Kind::Untouched),
            13 => Some(Kind::Check),
            15 => Some(Kind::Sum),
            _ => None,
        }
    }

    // The word of this kind with a payload.
    pub fn word(self, payload: u32) -> u32
        requires { payload < 2 ^ 28 }
        ensures { result ≡ kind_number self * 2 ^ 28 + payload }
    {
        self.number() * PAYLOADS + payload
    }

    // Whether a word is of this kind.
    pub fn is_of(self, w: u32) -> bool
        ensures { result ≡ is_kind (kind_number self) w }
    {
        is_kind(self.number(), w)
    }
}

// Whether a word is of kind `k`.
pub fn is_kind(k: u32, w: u32) -> bool
    ensures { result ≡ is_kind k w }
{
    w / PAYLOADS == k
}

// An alternative's opener: its payload is 0.
pub const ALTERNATIVE_WORD: u32 = Kind::Alternative as u32 * PAYLOADS;

// How many words are looked at at once, where they can be.
pub const AT_ONCE: usize = 4;

// The fewest and the most words of an image, and the most that its head counts.
pub const FEWEST_WORDS: usize = 2;

pub const MOST_WORDS: usize = 8192;

pub const MOST_FACTS: u32 = 256;

pub const MOST_STEPS: u32 = 1023;

pub const MOST_SEQUENCES: u32 = 256;

// The head's payload: F in bits 0 to 8, A in bits 9 to 18, C in bits 19 to 27. A field is what the payload has from its first bit on, below a
// power of two.
pub const FACTS_BELOW: u32 = 0x200;

pub const STEPS_FROM: u32 = 0x200;

pub const STEPS_BELOW: u32 = 0x400;

pub const SEQUENCES_FROM: u32 = 0x80000;

// Bits 31 to 28.
pub fn kind_of(w: u32) -> u32
    ensures { result ≡ kind w }
{
    w / PAYLOADS
}

// The low 28 bits.
pub fn payload_of(w: u32) -> u32
    ensures { result ≡ payload w }
{
    w % PAYLOADS
}

// A fact word: kind 2, 3 or 4.
pub fn is_fact(w: u32) -> bool
    ensures { result ≡ is_fact w }
{
    Kind::Needs.is_of(w) | Kind::Sets.is_of(w) | Kind::Clears.is_of(w)
}

// The kinds of entries, a bit a kind: 8, 9 and 13.
const ENTRY_KINDS: u32 = (1 << Kind::StepEntry as u32)
    | (1 << Kind::SequenceEntry as u32)
    | (1 << Kind::Check as u32);

// An entry: kind 8, 9 or 13. One look at a bit, since every walk over entries asks it of each word.
pub fn is_entry(w: u32) -> bool
    ensures { result ≡ is_entry w }
{
    (ENTRY_KINDS >> (w / PAYLOADS)) % 2 == 1
}

// What the head counts.
pub fn head_of(w: u32) -> Head
    ensures { result ≡ head_of w }
{
    let p = w % PAYLOADS;
    Head {
        facts: p % FACTS_BELOW,
        steps: p / STEPS_FROM % STEPS_BELOW,
        sequences: p / SEQUENCES_FROM,
    }
}

// Whether a word keeps the rule for the head.
pub fn head_right(w: u32) -> bool
    ensures { result ≡ head_right w }
{
    let p = w % PAYLOADS;
    let f = p % FACTS_BELOW;
    Kind::Head.is_of(w) & ((1 <= f) & (f <= MOST_FACTS)) & (p / SEQUENCES_FROM <= MOST_SEQUENCES)
}
