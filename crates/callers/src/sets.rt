// Sets of sequences as bits, four words a set: bit c % 64 of word c / 64 says whether sequence c is in it. A sequence is a
// plain number whose bound is in the contracts: it is an index too, of places, rows and ranks, each with a bound of its own.
ghost use Rattle.std.specs.Prelude.{◌≡◌, ◌+◌, ◌*◌, ◌%◌, ◌≤◌, ◌<◌, ℕ, List, length, true, IfSome};
ghost use Rattle.image.specs.Word.{most_sequences};
ghost use Rattle.callers.specs.Callers.{set_words, in_set, is_caller, with_member, Removed, United, no_sequences, every_sequence};

use column::sets::{holds, union, without};
use column::with_fact;
use std::marker::Model;

// The words of a set, and the bits of a word.
pub const SET_WORDS: usize = 4;

pub const WORD_BITS: usize = 64;

// The place of a sequence's bit in its word.
pub fn bit_of(c: usize) -> u32
    ensures { (result ≡ c % 64) × (result < 64) }
{
    (c % WORD_BITS) as u32
}

// A set of sequences. What contracts see of it is the list of its words.
#[derive(Clone, Copy)]
pub struct Set {
    words: [u64; SET_WORDS],
}

impl Model for Set {
    ghost Value = { List ℕ };

    ghost view = { λ s. s.words };

    ghost inverse = { λ v. record { words = v } };
}

// Any four words are a set, and a set gives them back.
impl From<[u64; SET_WORDS]> for Set {
    ghost from_gives = { λ words set. set ≡ words };

    fn from(words: [u64; SET_WORDS]) -> Set {
        Set { words }
    }
}

impl From<Set> for [u64; SET_WORDS] {
    ghost from_gives = { λ set words. words ≡ set };

    fn from(set: Set) -> [u64; SET_WORDS] {
        set.words
    }
}

impl Default for Set {
    // No sequence is in it.
    fn default() -> Set
        ensures { result ≡ no_sequences }
    {
        Set {
            words: [0; SET_WORDS],
        }
    }
}

impl Set {
    // Every sequence is in it.
    pub fn all() -> Set
        ensures { result ≡ every_sequence }
    {
        Set {
            words: [u64::MAX; SET_WORDS],
        }
    }

    // Whether sequence `c` is in the set.
    pub fn contains(&self, c: usize) -> bool
        requires { c < most_sequences }
        ensures { result ≡ in_set self.now c }
    {
        holds(self.words[c / WORD_BITS], bit_of(c))
    }

    // Puts sequence `c` in.
    pub fn insert(&mut self, c: usize)
        requires { c < most_sequences }
        ensures { self.new ≡ with_member self.old c }
    {
        let k = c / WORD_BITS;
        self.words[k] = with_fact(self.words[k], bit_of(c));
    }

    // Takes sequence `c` out.
    pub fn remove(&mut self, c: usize)
        requires { c < most_sequences }
        ensures { Removed c self.old self.new }
    {
        let k = c / WORD_BITS;
        self.words[k] = without(self.words[k], with_fact(0, bit_of(c)));
    }

    // The first of the callers of sequence `d` that are in the set.
    pub fn first_caller(&self, callers: &[u64], d: usize) -> Option<usize>
        requires { set_words * d + set_words ≤ length callers.now }
        ensures { IfSome result (λ c. (c < most_sequences) × (in_set self.now c ≡ true) × (is_caller callers.now d c ≡ true)) }
    {
        let at = SET_WORDS * d;
        let words = &self.words;
        for k in 0..SET_WORDS {
            let both = words[k] & callers[at + k];
            if both != 0 {
                return Some(WORD_BITS * k + both.trailing_zeros() as usize);
            }
        }
        None
    }

    // Puts the callers of sequence `d` in.
    pub fn unite(&mut self, callers: &[u64], d: usize)
        requires { set_words * d + set_words ≤ length callers.now }
        ensures { United d callers.now self.old self.new }
    {
        let at = SET_WORDS * d;
        for k in 0..SET_WORDS {
            self.words[k] = union(self.words[k], callers[at + k]);
        }
    }
}
