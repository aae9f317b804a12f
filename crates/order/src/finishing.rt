// The order of visits: a walk along the callers, from each sequence to those that call it, finishes a sequence after all that it leads to,
// and the order is written from its end: a sequence comes after those that it calls, unless they call it in turn. What is proved of the table
// holds for every order that names all sequences, and that is tested: the walk promises little, and each index is tested where it is used.
ghost use Rattle.std.specs.Prelude.{◌≡◌, ◌+◌, ◌-◌, ◌<◌, ◌≤◌, length, take, slice_index, slice_set, IfSome, MatchOption};
ghost use Rattle.image.specs.Word.{most_sequences};
ghost use Rattle.general.specs.Numbers.{Complete};
ghost use Rattle.callers.specs.Callers.{Removed};

use crate::named::{complete, write_numbers};
use callers::sets::{SET_WORDS, Set};
use image::word::MOST_SEQUENCES;

// No more sequences are entered at a time.
const STACK: usize = MOST_SEQUENCES as usize;

// Where the walk stands: the sequences that it has not entered, those that are entered and not finished, as many of the stack as it is deep, how many
// are not finished, and how many it has not begun with. The stack is an array: the archive takes in no library and no heap, and the array and its depth
// stand in this struct alone, with a ghost field that binds them.
#[derive(Drop)]
struct Walk<'a> {
    callers: &'a [u64],
    fresh: Set,
    stack: [usize; STACK],
    depth: usize,
    left: usize,
    roots: usize,
    ghost deep: { depth ≤ most_sequences },
    ghost few: { roots ≤ most_sequences },
}

impl Walk<'_> {
    // Enters sequence `d`: it is no longer one of the fresh ones.
    fn enter(&mut self, d: usize)
        requires { d < most_sequences }
        ensures fresh { Removed d self.old.fresh self.new.fresh }
        ensures stack { self.new.stack ≡ slice_set self.old.stack self.old.depth d }
        ensures depth { self.old.depth < most_sequences → self.new.depth ≡ self.old.depth + 1 }
        ensures rest { (self.new.left ≡ self.old.left) × (self.new.roots ≡ self.old.roots) }
    {
        self.fresh.remove(d);
        if self.depth < STACK {
            self.stack[self.depth] = d;
            self.depth += 1;
        }
    }

    // The sequence that was entered last and is not finished.
    fn top(&self) -> Option<usize>
        ensures { MatchOption result (self.now.depth ≡ 0) (λ c. (0 < self.now.depth) × (c ≡ slice_index self.now.stack (self.now.depth - 1))) }
    {
        self.stack[..self.depth].last().copied()
    }

    // The first fresh caller of sequence `c`.
    fn next_caller(&self, c: usize) -> Option<usize>
        ensures { IfSome result (λ d. d < most_sequences) }
    {
        if self.callers.len() / SET_WORDS <= c {
            return None;
        }
        self.fresh.first_caller(self.callers, c)
    }

    // No sequence is entered: the walk begins with the next one, the last sequence first, if it is fresh.
    fn begin(&mut self)
        ensures roots { self.new.roots ≡ self.old.roots - 1 }
        ensures fresh { 0 < self.old.roots → Removed self.new.roots self.old.fresh self.new.fresh }
    {
        if self.roots == 0 {
            return;
        }
        self.roots -= 1;
        let root = self.roots;
        if self.fresh.contains(root) {
            self.enter(root);
        }
    }

    // Sequence `c`, on top, is finished: it is the next from the end of the order.
    fn finish(&mut self, order: &mut [usize], c: usize)
        ensures { order.new ≡ slice_set order.old self.new.left c }
    {
        self.depth = self.depth.saturating_sub(1);
        self.left = self.left.wrapping_sub(1);
        if self.left < order.len() {
            order[self.left] = c;
        }
    }

    // One turn: a sequence is begun with, entered or finished.
    fn turn(&mut self, order: &mut [usize])
        ensures { order.new ≡ slice_set order.old self.new.left (slice_index order.new self.new.left) }
    {
        let Some(c) = self.top() else {
            return self.begin();
        };
        match self.next_caller(c) {
            Some(d) => self.enter(d),
            None => self.finish(order, c),
        }
    }
}

// Writes the order of the sequences below `n` with these callers. At first all of them are fresh.
fn finishing_order(callers: &[u64], order: &mut [usize], n: usize)
    requires { n ≤ most_sequences }
    ensures { length order.new ≡ length order.old }
{
    let mut walk = Walk {
        callers,
        fresh: Set::all(),
        stack: [0; STACK],
        depth: 0,
        left: n,
        roots: n,
    };
    // each sequence is begun with, entered and finished once at the most
    for _ in 0..3 * n {
        walk.turn(order);
    }
}

// Writes an order of the sequences below `n`: the finishing order, or their numbers in turn where that does not name all.
pub fn visiting_order(callers: &[u64], order: &mut [usize], n: usize)
    requires { (n ≤ most_sequences) × (n ≤ length order.old) }
    ensures { Complete (take n order.new) n }
{
    finishing_order(callers, order, n);
    if complete(&order[..n], n) {
        return;
    }
    write_numbers(order, n);
}
