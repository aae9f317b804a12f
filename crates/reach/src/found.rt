// The sequences without a run that one reaches. Those that are found stand in a set, and in the order in which they were found in a queue; each is
// taken from the queue once, and the sequences without a run that it names are found.
ghost use Rattle.std.specs.Prelude.{◌≤◌, ◌<◌, ◌≡◌, length, drop, eqb};
ghost use Rattle.image.specs.Word.{most_sequences};
ghost use Rattle.library.specs.Calls.{calls_of};
ghost use Rattle.library.specs.Library.{alternatives_from};
ghost use Rattle.reach.specs.Queue.{NamesWithin, ReachAsked, Queued, Found};

use callers::callees::Callees;
use callers::sets::Set;

// What is found, of the sequences below `n` that are not among `runs`: a set, and its members in the order in which they were found. The queue is lent
// with its count beside it: there is no heap, and an array of so many words would be copied whenever the struct is handed on.
#[derive(Drop)]
pub struct Reached<'a> {
    pub runs: &'a Set,
    pub n: usize,
    pub set: Set,
    pub queue: &'a mut [usize],
    pub count: usize,
    ghost queued: { Queued n set queue.now count },
}

impl<'a> Reached<'a> {
    ghost use Rattle.reach.specs.Found.{Alone, Noted};

    // Sequence `c` alone is found.
    fn only(runs: &'a Set, queue: &'a mut [usize], n: usize, c: usize) -> Reached<'a>
        requires { (n ≤ most_sequences) × (n ≤ length queue.old) × (c < n) }
        ensures { Alone runs.now n c result }
    {
        let mut set = Set::default();
        set.insert(c);
        queue[0] = c;
        Reached {
            runs,
            n,
            set,
            queue,
            count: 1,
        }
    }

    // Finds sequence `d`, where it has no run and was not found before.
    fn note(&mut self, d: usize)
        requires { d < self.old.n }
        ensures { Noted (λ e. eqb d e) self.old self.new }
    {
        if self.runs.contains(d) | self.set.contains(d) {
            return;
        }
        self.queue[self.count] = d;
        self.set.insert(d);
        self.count += 1;
    }

    // Finds the sequences that the alternatives name which stand from index `at` on, where they have no run.
    fn note_named(&mut self, part: &[u32], at: usize)
        requires { NamesWithin self.old.n part.now × (at ≤ length part.now) }
        ensures { Noted (calls_of (alternatives_from (drop at part.now))) self.old self.new }
    {
        for d in Callees::of(part, at) {
            self.note(d as usize);
        }
    }
}

// Finds what sequence `c` reaches, which has no run.
pub fn reach<'a>(
    part: &[u32],
    places: &[u32],
    runs: &'a Set,
    queue: &'a mut [usize],
    n: usize,
    c: usize,
) -> Reached<'a>
    requires { ReachAsked n part.now places.now runs.now × (n ≤ length queue.old) × (c < n) }
    ensures { Found n part.now places.now runs.now c result.set result.count }
{
    let mut reached = Reached::only(runs, queue, n, c);
    let mut done = 0;
    // The queue grows while it is gone through.
    while done < reached.count {
        let at = places[reached.queue[done]] as usize + 1;
        done += 1;
        reached.note_named(part, at);
    }
    reached
}
