// A table that visits change, one number at a time, and its settling: visits until none changes it.
ghost use Rattle.std.specs.Prelude.{ℕ, ◌*◌, ◌≤◌, ◌<◌, ◌≡◌, Bool, List, length};
ghost use Rattle.image.specs.Word.{most_sequences};
ghost use Rattle.callers.specs.Callers.{set_words, calls};
ghost use Rattle.settling.specs.Settling.{Visit, VisitLaws, Scheduled, Swept, Settles};
ghost use Rattle.settling.specs.Turns.{to_visit, StaleAfter};

use crate::turns::{Turns, after_visit};
use callers::sets::Set;

// The visits of a table. Their laws (`VisitLaws`) are asked where a table is settled, and are no laws of the trait: an `impl` may cite its crate's
// specs/ alone, and the laws of each kind of visit stand in proofs/.
pub trait Visits {
    // What the table is made of.
    type Word;

    // The table as a list of numbers.
    ghost value: { List Self.Word → List ℕ };

    // The words of the sequences' part, and the place of each sequence in it: they say which sequences call which.
    ghost part: { Self → List ℕ };

    ghost places: { Self → List ℕ };

    // What visits of the numbers below n ask of the table.
    ghost asked: { Self → ℕ → List ℕ → Type 0 };

    // The table after a visit.
    ghost visited: { Self → List ℕ → ℕ → List ℕ };

    // What falls while the table changes.
    ghost weight: { List ℕ → ℕ };

    // Visits number `c`. Answers whether that changed the table.
    fn visit(&self, table: &mut [Self::Word], c: usize) -> bool
        requires { (n : ℕ) × asked self.now n (value table.old) × (c < n) }
        ensures { Visit (visited self.now) weight (value table.old) c (value table.new) result };
}

// What settling a table of the sequences below `n` goes by: the sets of their callers, and an order that names each of them.
#[derive(Clone, Copy)]
pub struct Schedule<'a> {
    pub n: usize,
    pub callers: &'a [u64],
    pub order: &'a [usize],
}

impl Schedule<'_> {
    // Whether a number is one of the sequences, and stale.
    pub(crate) fn to_visit(&self, stale: &Set, c: usize) -> bool
        requires { self.now.n ≤ most_sequences }
        ensures { result ≡ to_visit self.now.n stale.now c }
    {
        c < self.n && stale.contains(c)
    }

    // Visits sequence `c`, which is then no longer stale, and its callers are where that changed the table.
    fn visit<V: Visits>(&self, visits: &V, table: &mut [V::Word], stale: &mut Set, c: usize)
        requires { V.asked visits.now self.now.n (V.value table.old) × (c < self.now.n) × (self.now.n ≤ most_sequences) × (set_words * self.now.n ≤ length self.now.callers.now) }
        ensures { (changed : Bool) × Visit (V.visited visits.now) V.weight (V.value table.old) c (V.value table.new) changed × StaleAfter self.now.callers.now c stale.old stale.new changed }
    {
        let changed = visits.visit(table, c);
        after_visit(stale, self.callers, c, changed);
    }

    // Visits each sequence that the order names once. At first every sequence is stale, and afterwards those that a visit may still change.
    fn sweep<V: Visits>(&self, visits: &V, table: &mut [V::Word], stale: &mut Set)
        requires { VisitLaws (V.visited visits.now) V.weight (calls (V.part visits.now) (V.places visits.now)) self.now.n (V.asked visits.now self.now.n) (V.value table.old) × Scheduled self.now.n (V.part visits.now) (V.places visits.now) self.now.callers.now self.now.order.now × Swept (V.visited visits.now) self.now.n (V.value table.old) (V.value table.old) stale.old }
        ensures { Swept (V.visited visits.now) self.now.n (V.value table.old) (V.value table.new) stale.new }
    {
        for c in self.order {
            if *c < self.n {
                self.visit(visits, table, stale, *c);
            }
        }
    }

    // Visits all sequences in the order, and then those that are stale, against the order and in it in turn, until none is.
    pub fn settle<V: Visits>(&self, visits: &V, table: &mut [V::Word])
        requires { VisitLaws (V.visited visits.now) V.weight (calls (V.part visits.now) (V.places visits.now)) self.now.n (V.asked visits.now self.now.n) (V.value table.old) × Scheduled self.now.n (V.part visits.now) (V.places visits.now) self.now.callers.now self.now.order.now }
        ensures { Settles (V.visited visits.now) self.now.n (V.value table.old) (V.value table.new) }
    {
        let mut stale = Set::all();
        self.sweep(visits, table, &mut stale);
        let mut turns = Turns::after_all();
        // No `for`: which turn is next goes by what is stale, and that each visit changes.
        while let Some(c) = turns.next(self, &stale) {
            self.visit(visits, table, &mut stale, c);
        }
    }
}
