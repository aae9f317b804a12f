// The callers of each sequence, as a set.
ghost use Rattle.std.specs.Prelude.{◌≤◌, ◌<◌, length, drop, eqb};
ghost use Rattle.image.specs.Word.{most_sequences};
ghost use Rattle.library.specs.Calls.{calls_of};
ghost use Rattle.library.specs.Library.{alternatives_from};
ghost use Rattle.callers.specs.Callers.{Put, CallersAsked, CallersWritten};

use crate::callees::Callees;
use crate::sets::{SET_WORDS, WORD_BITS, bit_of};
use column::with_fact;

// Makes sequence `c` a caller of sequence `p`, where that has a set.
fn add(callers: &mut [u64], p: u32, c: usize)
    requires { c < most_sequences }
    ensures { Put c (λ d. eqb p d) callers.old callers.new }
{
    let k = SET_WORDS * p as usize + c / WORD_BITS;
    if k < callers.len() {
        callers[k] = with_fact(callers[k], bit_of(c));
    }
}

// Makes sequence `c` a caller of those that its alternatives call, which stand from index `at` on.
fn add_calls(part: &[u32], at: usize, callers: &mut [u64], c: usize)
    requires { (c < most_sequences) × (at ≤ length part.now) }
    ensures { Put c (λ d. calls_of (alternatives_from (drop at part.now)) d) callers.old callers.new }
{
    for d in Callees::of(part, at) {
        add(callers, d, c);
    }
}

// Writes the callers of the sequences with these places.
pub fn write_callers(part: &[u32], places: &[u32], callers: &mut [u64], n: usize)
    requires { CallersAsked n part.now places.now callers.old }
    ensures { CallersWritten n part.now places.now callers.new }
{
    for (c, place) in places[..n].iter().enumerate() {
        add_calls(part, *place as usize + 1, callers, c);
    }
}
