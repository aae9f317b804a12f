// What an alternative comes to by the ranks as they stand, and the rank of a sequence lowered by its alternatives.
ghost use Rattle.std.specs.Prelude.{◌≡◌, true, cond, ℕ, ◌+◌, ◌≤◌, min, max, [], length, drop};
ghost use Rattle.image.specs.Word.{is_entry};
ghost use Rattle.library.specs.Library.{entry_of, alternatives_from};
ghost use Rattle.slot.specs.Slots.{traits_in, RankWithin};
ghost use Rattle.rank.specs.Walk.{lowered_from};
ghost use Rattle.rank.specs.Tables.{depth_in, every_in, fewest_after, fewest_in, look_in, lacks_in, lost_in, dead_in, RanksReadable, Rankable, AlternativeRanked};

use image::word::Kind;
use question::asked::{Asked, Mark};
use slot::entry::{Traits, passes, rank_of, traits_of};
use walk::entries::{Ended, walk_entries};
use walk::sequence::{part_entry, select, word_at};

// What an alternative comes to, and the index at which the walk over its entries ended: that of the first dead one, or of the word after them.
pub type Read = Ended<u32>;

// A table of ranks with the words that it has ranks for, and what stands for "no rank" in it.
#[derive(Clone, Copy)]
pub struct Table<'a> {
    pub none: u32,
    pub ranks: &'a [u32],
    pub part: &'a [u32],
    ghost rankable: { Rankable none ranks.now part.now },
}

impl<'a> Table<'a> {
    // The greatest depth among the entries that stand from index `at` on. The walk ends at the first without a rank.
    pub fn greatest_depth(&self, at: usize) -> Read
        requires { at ≤ length self.now.part.now }
        ensures { AlternativeRanked (depth_in self.now.none self.now.ranks.now) (lacks_in self.now.none self.now.ranks.now) self.now.part.now at result }
    {
        let walk = walk_entries(self.part, at, 0, |depth: u32, w| {
            let rank = rank_of(self.none, self.ranks, w);
            (rank < self.none).then_some(depth.max(rank))
        });
        Ended {
            value: walk.value.unwrap_or(self.none),
            ended: walk.ended,
        }
    }

    // Whether all entries that stand from index `at` on have a rank: 0 where they do, and `none` where not, the numbers that definition
    // `every_in` names, since a rank is lowered by what this answers. The walk ends at the first without one.
    fn all_ranked(&self, at: usize) -> Read
        requires { at ≤ length self.now.part.now }
        ensures { AlternativeRanked (every_in self.now.none self.now.ranks.now) (lacks_in self.now.none self.now.ranks.now) self.now.part.now at result }
    {
        let walk = walk_entries(self.part, at, 0, |zero: u32, w| {
            passes(self.none, self.ranks, w).then_some(zero)
        });
        Ended {
            value: walk.value.unwrap_or(self.none),
            ended: walk.ended,
        }
    }
}

// What the positions so far come to. `best` is the fewest links after this one, `none` where no position counts. `floor` is 0 until an entry
// fails as one ahead of those to come, and then `none`: a number and no Boolean, since definition `fewest_after` takes it as one.
#[derive(Clone, Copy)]
pub struct Positions {
    pub best: u32,
    pub floor: u32,
}

impl Positions {
    // The same with one entry more, which rules out the positions so far where it fails as one behind.
    fn with_entry(self, none: u32, t: Traits) -> Positions
        ensures { (result.best ≡ min (cond t.behind self.best none) (max t.rank self.floor)) × (result.floor ≡ cond t.ahead self.floor none) }
    {
        Positions {
            best: select(t.behind, self.best, none).min(t.rank.max(self.floor)),
            floor: select(t.ahead, self.floor, none),
        }
    }
}

// A rank lowered by an alternative: a sequence is one above the least of its alternatives.
fn lower(r: u32, value: u32) -> u32
    ensures { result ≡ min r (1 + value) }
{
    if value < r { value + 1 } else { r }
}

// The question, the three tables of ranks that answer it, and the words that they have ranks for: `ranks` is the question's own, `ahead` and
// `behind` say which entries pass as those ahead of a position and behind it.
#[derive(Clone, Copy)]
pub struct Ranks<'a> {
    pub q: Asked,
    pub ahead: &'a [u32],
    pub behind: &'a [u32],
    pub ranks: &'a [u32],
    pub part: &'a [u32],
    ghost readable: { RanksReadable q.none ahead.now behind.now ranks.now part.now },
}

impl<'a> Ranks<'a> {
    // The question's own table.
    pub fn own(&self) -> Table<'a>
        ensures { (result.none ≡ self.now.q.none) × (result.ranks.now ≡ self.now.ranks.now) × (result.part.now ≡ self.now.part.now) }
    {
        Table {
            none: self.q.none,
            ranks: self.ranks,
            part: self.part,
        }
    }

    // The traits of an entry.
    pub fn traits(&self, w: u32) -> Traits
        requires { RankWithin self.now.q.none self.now.ahead.now w × RankWithin self.now.q.none self.now.behind.now w × RankWithin self.now.q.none self.now.ranks.now w × (is_entry w ≡ true) }
        ensures { result ≡ traits_in self.now.q.none self.now.ahead.now self.now.behind.now self.now.ranks.now (entry_of w) }
    {
        traits_of(self.q.none, self.ahead, self.behind, self.ranks, w)
    }

    // The fewest links after this one, among the positions so far and those of the entries that stand from index `at` on. An entry that no table
    // has a rank for leaves no position that counts, before it, at it or after it: the walk ends there.
    fn links_from(&self, at: usize, seen: Positions) -> Read
        requires { at ≤ length self.now.part.now }
        ensures { AlternativeRanked (fewest_after self.now.q.none self.now.ahead.now self.now.behind.now self.now.ranks.now seen) (lost_in self.now.q.none self.now.ahead.now self.now.behind.now self.now.ranks.now) self.now.part.now at result }
    {
        let none = self.q.none;
        let walk = walk_entries(self.part, at, seen, |x: Positions, w| {
            let t = self.traits(w);
            (t.ahead | t.behind | (t.rank < none)).then_some(x.with_entry(none, t))
        });
        // No `map_or`: the check can't name what its closure promises where the proof needs it.
        let value = match walk.value {
            Ok(x) => x.best,
            Err(_) => none,
        };
        Ended {
            value,
            ended: walk.ended,
        }
    }

    // The same from the first entry on. That an entry is not dead is seen by one table, which nearly every entry passes: by the one for those
    // behind on the first side, by the one for those ahead on the last. All three are asked from the first entry on that fails it. Where
    // `first` is a constant this compiles to a loop with one test an entry. It is no const parameter, since the check reads no contract off a
    // closure in a function that has one.
    fn fewest_links(&self, first: bool, at: usize) -> Read
        requires { at ≤ length self.now.part.now }
        ensures { AlternativeRanked (fewest_in self.now.q.none self.now.ahead.now self.now.behind.now self.now.ranks.now) (lost_in self.now.q.none self.now.ahead.now self.now.behind.now self.now.ranks.now) self.now.part.now at result }
    {
        let none = self.q.none;
        let start = Positions {
            best: none,
            floor: 0,
        };
        let walk = walk_entries(self.part, at, start, |x: Positions, w| {
            let t = self.traits(w);
            ((first & t.behind) | (!first & t.ahead)).then_some(x.with_entry(none, t))
        });
        match walk.value {
            Ok(x) => Ended {
                value: x.best,
                ended: walk.ended,
            },
            Err(x) => self.links_from(walk.ended, x),
        }
    }

    // What the alternative comes to whose entries stand from index `at` on.
    pub fn read_alternative(&self, at: usize) -> Read
        requires { at ≤ length self.now.part.now }
        ensures { AlternativeRanked (look_in self.now.q self.now.ahead.now self.now.behind.now self.now.ranks.now) (dead_in self.now.q self.now.ahead.now self.now.behind.now self.now.ranks.now) self.now.part.now at result }
    {
        match self.q.mark {
            Mark::Untouched => self.own().greatest_depth(at),
            Mark::Run => self.own().all_ranked(at),
            _ if self.q.first => self.fewest_links(true, at),
            _ => self.fewest_links(false, at),
        }
    }

    // What an alternative without entries comes to.
    fn nothing(&self) -> u32
        ensures { result ≡ look_in self.now.q self.now.ahead.now self.now.behind.now self.now.ranks.now [] }
    {
        match self.q.mark {
            Mark::Untouched => 0,
            Mark::Run => 0,
            _ => self.q.none,
        }
    }

    // What the alternative comes to whose entries stand from index `at` on. One without entries comes to `nothing`, and is not walked: a sequence may have
    // thousands of them.
    fn read_after(&self, nothing: u32, at: usize) -> Read
        requires { (at ≤ length self.now.part.now) × (nothing ≡ look_in self.now.q self.now.ahead.now self.now.behind.now self.now.ranks.now []) }
        ensures { AlternativeRanked (look_in self.now.q self.now.ahead.now self.now.behind.now self.now.ranks.now) (dead_in self.now.q self.now.ahead.now self.now.behind.now self.now.ranks.now) self.now.part.now at result }
    {
        if part_entry(word_at(self.part, at)) {
            return self.read_alternative(at);
        }
        Ended {
            value: nothing,
            ended: at,
        }
    }

    // The rank lowered by the alternatives that stand from index `at` on, up to the next sequence, past the entries that a walk has left. A
    // sequence has no rank below 1.
    pub fn lowered_rank(&self, at: usize, rank: u32) -> u32
        requires { at ≤ length self.now.part.now }
        ensures { result ≡ lowered_from (look_in self.now.q self.now.ahead.now self.now.behind.now self.now.ranks.now) rank (alternatives_from (drop at self.now.part.now)) }
    {
        let nothing = self.nothing();
        let mut r = rank;
        let mut i = at;
        // Each turn goes on where a walk over entries ended, so that no range or iterator counts the turns.
        while i < self.part.len() {
            let w = self.part[i];
            i += 1;
            if !part_entry(w) {
                if (r <= 1) | !Kind::Alternative.is_of(w) {
                    return r;
                }
                let found = self.read_after(nothing, i);
                r = lower(r, found.value);
                i = found.ended;
            }
        }
        r
    }
}
