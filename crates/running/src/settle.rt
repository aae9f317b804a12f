// The set of the sequences that have a run, settled: sequences are visited until no visit finds another one. Passes over all of them are enough for
// most images, and need no table; where a pass finds too few, a sequence is visited again only after one that it calls was found.
ghost use Rattle.std.specs.Prelude.{◌≡◌, ◌<◌, ◌≤◌, [], length, get_or};
ghost use Rattle.callers.specs.Callers.{set_words};
ghost use Rattle.settling.specs.Settling.{Scheduled, Visit, Pass, Settles};
ghost use Rattle.running.specs.Visited.{lacking, RunsVisitable, visited};

use crate::read::gives_run;
use callers::sets::Set;
use callers::write::write_callers;
use order::finishing::visiting_order;
use settling::settle::{Schedule, Visits};
use settling::turns::place_of;
use tables::size::{MOST_CALLERS, MOST_PLACES};

// One sequence of so many is visited from either end, to see which way passes go.
const TRIED: usize = 16;

// What visits go by: the words of the sequences' part, and the place of each of the sequences below `n` there.
#[derive(Clone, Copy)]
pub struct RunVisits<'a> {
    pub part: &'a [u32],
    pub places: &'a [u32],
    pub n: usize,
    pub ghost visitable: { RunsVisitable n part.now places.now },
}

// A set is settled as a table of one word, the set: a trait's table is a slice, since no type parameter stands for an unsized type.
impl Visits for RunVisits<'_> {
    type Word = Set;

    ghost value = { λ t. get_or t 0 [] };

    ghost part = { λ v. v.part.now };

    ghost places = { λ v. v.places.now };

    ghost asked = { λ v n t. (n ≤ v.n) × (length t ≡ set_words) };

    ghost visited = { λ v. visited v.part.now v.places.now };

    ghost weight = { lacking };

    fn visit(&self, table: &mut [Set], c: usize) -> bool {
        self.find(&mut table[0], c)
    }
}

// That the set has its words is asked of each: the type `Set` shows the list of its words, and says nothing of its length.
impl RunVisits<'_> {
    // Puts sequence `c` into the set where one of its alternatives gives a run. Answers whether that is new.
    fn find(&self, runs: &mut Set, c: usize) -> bool
        requires { (length runs.old ≡ set_words) × (c < self.now.n) }
        ensures { Visit (visited self.now.part.now self.now.places.now) lacking runs.old c runs.new result }
    {
        if runs.contains(c) {
            return false;
        }
        let at = self.places[c] as usize + 1;
        let new = gives_run(runs, self.part, at);
        if new {
            runs.insert(c);
        }
        new
    }

    // Visits so many sequences, each once, from the first on or from the last. Answers how many were found.
    fn pass(&self, runs: &mut Set, forward: bool, turns: usize) -> usize
        requires { (length runs.old ≡ set_words) × (turns ≤ self.now.n) }
        ensures { Pass (visited self.now.part.now self.now.places.now) lacking self.now.n turns runs.old runs.new result }
    {
        let mut count = 0;
        for i in 0..turns {
            let new = self.find(runs, place_of(forward, self.n, i));
            count += usize::from(new);
        }
        count
    }

    // Settles the set by way of the callers of each sequence and an order of visits.
    fn settle_by_callers(&self, runs: &mut Set)
        requires { length runs.old ≡ set_words }
        ensures { Settles (visited self.now.part.now self.now.places.now) self.now.n runs.old runs.new }
    {
        let mut callers = [0u64; MOST_CALLERS];
        let mut order = [0usize; MOST_PLACES];
        write_callers(self.part, self.places, &mut callers, self.n);
        visiting_order(&callers, &mut order, self.n);
        let schedule = Schedule {
            n: self.n,
            callers: &callers,
            order: &order[..self.n],
        };
        schedule.settle(self, std::slice::from_mut(runs));
    }

    // Settles the set, in which so many are left to be found: by passes, as long as each finds as many as it leaves, so that what is left halves and
    // there are few of them; otherwise by way of the callers.
    fn settle_from(&self, runs: &mut Set, forward: bool, unfound: usize)
        requires { length runs.old ≡ set_words }
        ensures { Settles (visited self.now.part.now self.now.places.now) self.now.n runs.old runs.new }
    {
        let mut left = unfound;
        // No `for`: how many passes it takes is seen as they go.
        'passes: loop {
            let count = self.pass(runs, forward, self.n);
            if count == 0 {
                return;
            }
            left = left.wrapping_sub(count);
            if count < left {
                return self.settle_by_callers(runs);
            }
        }
    }

    // Settles the set. Some sequences are visited from the last on, and as many from the first on: where more are found, there sequences mostly come
    // after those that they call, and passes go that way.
    pub fn settle(&self, runs: &mut Set)
        requires { length runs.old ≡ set_words }
        ensures { Settles (visited self.now.part.now self.now.places.now) self.now.n runs.old runs.new }
    {
        let some = self.n / TRIED;
        let back = self.pass(runs, false, some);
        let forth = self.pass(runs, true, some);
        let left = self.n.wrapping_sub(back + forth);
        self.settle_from(runs, back < forth, left);
    }
}
