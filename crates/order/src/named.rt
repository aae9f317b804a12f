// Whether an order names every number, which is tested at run time, and the order of the numbers in turn.
ghost use Rattle.std.specs.Prelude.{◌≡◌, ◌≤◌, true, length};
ghost use Rattle.general.specs.Numbers.{Complete};
ghost use Rattle.order.specs.Order.{MarksNamed, AllMarked, InTurn};

use callers::sets::Set;
use image::word::MOST_SEQUENCES;

const MOST: usize = MOST_SEQUENCES as usize;

// The numbers that `order` names, of those that are sequences'.
fn mark(order: &[usize]) -> Set
    ensures { MarksNamed order.now result }
{
    let mut seen = Set::default();
    for c in order {
        if *c < MOST {
            seen.insert(*c);
        }
    }
    seen
}

// Whether each number below `n` is marked. By `(0..n).all(..)` the proof did not close: that each number of the range was asked stayed open.
fn all_marked(seen: &Set, n: usize) -> bool
    ensures { result ≡ true → AllMarked seen.now n }
{
    if MOST < n {
        return false;
    }
    for c in 0..n {
        if !seen.contains(c) {
            return false;
        }
    }
    true
}

// Whether `order` names each number below `n`.
pub fn complete(order: &[usize], n: usize) -> bool
    ensures { result ≡ true → Complete order.now n }
{
    let seen = mark(order);
    all_marked(&seen, n)
}

// Names the numbers below `n` in turn.
pub fn write_numbers(order: &mut [usize], n: usize)
    requires { n ≤ length order.old }
    ensures { InTurn order.new n }
{
    for (c, place) in order[..n].iter_mut().enumerate() {
        *place = c;
    }
}
