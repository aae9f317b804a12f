// Turns: which stale number is visited next, in an order and against it in turn, and what is stale after its visit.
ghost use Rattle.std.specs.Prelude.{false, ◌+◌, ◌*◌, ◌≤◌, ◌<◌, ◌≡◌, length};
ghost use Rattle.image.specs.Word.{most_sequences};
ghost use Rattle.general.specs.Numbers.{Complete};
ghost use Rattle.callers.specs.Callers.{set_words};
ghost use Rattle.settling.specs.Turns.{place_of, Looked, NextTurn, StaleAfter};

use crate::settle::Schedule;
use callers::sets::Set;

// Where the turns stand: the place from which the next stale number is looked for, and whether the order is gone through first to last.
#[derive(Clone, Copy)]
pub struct Turns {
    pub place: usize,
    pub forward: bool,
}

// The place in an order of `len` numbers that comes at turn `i`: first to last, or last to first.
pub fn place_of(forward: bool, len: usize, i: usize) -> usize
    requires { i < len }
    ensures { (result ≡ place_of forward len i) × (result < len) }
{
    if forward {
        return i;
    }
    len - 1 - i
}

impl Turns {
    // The first turn after all numbers were visited in the order: against it.
    pub fn after_all() -> Turns
        ensures { (result.place ≡ 0) × (result.forward ≡ false) }
    {
        Turns {
            place: 0,
            forward: false,
        }
    }

    // The first stale number from the turns' place on, in their direction.
    fn look(&mut self, schedule: &Schedule, stale: &Set) -> Option<usize>
        requires { schedule.now.n ≤ most_sequences }
        ensures { Looked schedule.now.n schedule.now.order.now stale.now self.old.forward self.old.place self.new.place result }
    {
        let Turns { place, forward } = *self;
        let order = schedule.order;
        for i in place..order.len() {
            let c = order[place_of(forward, order.len(), i)];
            if schedule.to_visit(stale, c) {
                self.place = i + 1;
                return Some(c);
            }
        }
        None
    }

    // The next turn: the first stale number from the turns' place on, or else the first one against their direction.
    pub fn next(&mut self, schedule: &Schedule, stale: &Set) -> Option<usize>
        requires { (schedule.now.n ≤ most_sequences) × Complete schedule.now.order.now schedule.now.n }
        ensures { NextTurn schedule.now.n stale.now result }
    {
        let here = self.look(schedule, stale);
        if here.is_some() {
            return here;
        }
        self.forward = !self.forward;
        self.place = 0;
        self.look(schedule, stale)
    }
}

// After a visit of number `c` it is no longer stale, and its callers are where the visit changed something.
pub fn after_visit(stale: &mut Set, callers: &[u64], c: usize, changed: bool)
    requires { (c < most_sequences) × (set_words * c + set_words ≤ length callers.now) }
    ensures { StaleAfter callers.now c stale.old stale.new changed }
{
    stale.remove(c);
    if changed {
        stale.unite(callers, c);
    }
}
