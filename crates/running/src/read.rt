// Whether the alternatives of a sequence give a run, by the set of the sequences that are found to have one.
ghost use Rattle.std.specs.Prelude.{◌≡◌, ◌≤◌, true, length, drop};
ghost use Rattle.image.specs.Word.{is_entry};
ghost use Rattle.library.specs.Library.{entry_of, alternatives_from};
ghost use Rattle.callers.specs.Callers.{in_set};
ghost use Rattle.running.specs.Runs.{is_dead, runs_by, RunWithin, RunsReadable, AlternativeWalked};

use callers::sets::Set;
use image::word::{Kind, payload_of};
use walk::sequence::{part_entry, rest_end, word_at};

// Whether an entry names a sequence that is not found to have a run.
fn is_dead(runs: &Set, w: u32) -> bool
    requires { RunWithin w × (is_entry w ≡ true) }
    ensures { result ≡ is_dead runs.now (entry_of w) }
{
    Kind::SequenceEntry.is_of(w) && !runs.contains(payload_of(w) as usize)
}

// Walks the entries that stand from index `at` on. Answers the index of the first dead one, or of the word after them.
fn live_end(runs: &Set, part: &[u32], at: usize) -> usize
    requires { RunsReadable part.now × (at ≤ length part.now) }
    ensures { AlternativeWalked runs.now part.now at result }
{
    for i in at..part.len() {
        let w = part[i];
        if !part_entry(w) || is_dead(runs, w) {
            return i;
        }
    }
    part.len()
}

// Whether one of the alternatives that stand from index `at` on gives a run: the walk over its entries meets no dead one.
pub fn gives_run(runs: &Set, part: &[u32], at: usize) -> bool
    requires { RunsReadable part.now × (at ≤ length part.now) }
    ensures { result ≡ runs_by (in_set runs.now) (alternatives_from (drop at part.now)) }
{
    let mut i = at;
    // The walk goes on where the walks over entries end.
    loop {
        let w = word_at(part, i);
        i += 1;
        if part_entry(w) {
            i = rest_end(part, i);
        } else if !Kind::Alternative.is_of(w) {
            return false;
        } else {
            i = live_end(runs, part, i);
            if !part_entry(word_at(part, i)) {
                return true;
            }
        }
    }
}
