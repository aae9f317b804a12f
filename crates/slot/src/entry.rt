// What the tables say of an entry, for the question that is asked. An entry is a plain word: the walks test in `part_entry` whether a word is one, and
// their closures take words, so that the fact is asked of each word where it is used, and a type of entries would be unwrapped there again.
ghost use Rattle.std.specs.Prelude.{◌≡◌, true, cond, ℕ, ◌+◌, ◌*◌, ◌≤◌, ◌<◌, length};
ghost use Rattle.library.specs.Tables.{mask_words};
ghost use Rattle.image.specs.Word.{is_entry, most_facts};
ghost use Rattle.library.specs.Library.{entry_of};
ghost use Rattle.slot.specs.Slots.{first_step, slot_of, rank_in, pass_in, traits_in, RankWithin, mark_of, step_mark, mark_rank, check_rank, step_rank, Written, ItemsRankable, ItemsRanked};

use column::sets::holds;
use image::word::{Kind, MOST_FACTS, kind_of, payload_of};
use library::tables::MASK_WORDS;
use question::asked::{Asked, Mark};
use walk::sequence::select;

// An entry's rank, and whether it passes as one ahead of the position and as one behind it.
#[derive(Clone, Copy)]
pub struct Traits {
    pub rank: u32,
    pub ahead: bool,
    pub behind: bool,
}

// The mark that two columns give the fact that has bit `b` in them.
fn mark_of(b: u32, one: u64, other: u64) -> Mark
    requires { b < 64 }
    ensures { result ≡ mark_of b one other }
{
    select(
        holds(one, b),
        Mark::Present,
        select(holds(other, b), Mark::Absent, Mark::Untouched),
    )
}

// The mark of step `a` on the question's side, by the masks of the block of the fact asked about.
fn step_mark(q: Asked, masks: &[u64], a: usize) -> Mark
    requires { mask_words * a + mask_words ≤ length masks.now }
    ensures { result ≡ step_mark q masks.now a }
{
    let at = MASK_WORDS * a + select(q.first, 0, 1);
    mark_of(q.fact_bit(), masks[at], masks[at + 1])
}

// The rank of an item by its mark: 0 where it is the mark asked for, or where any will do.
fn mark_rank(all: bool, q: Asked, mark: Mark) -> u32
    ensures { result ≡ mark_rank all q mark }
{
    select(all | (mark == q.mark), 0, q.none)
}

// Writes the ranks of the checks into a table: those of all facts that there may be stand from word `none` on. They are alike but for that of
// the fact asked about, since every other check leaves the fact untouched.
fn write_check_ranks(all: bool, q: Asked, ranks: &mut [u32])
    requires { (q.fact < most_facts) × (first_step q.none ≤ length ranks.old) }
    ensures { Written q.none (first_step q.none) (check_rank all q) ranks.old ranks.new }
{
    let base = q.none as usize;
    ranks[base..base + MOST_FACTS as usize].fill(mark_rank(all, q, Mark::Untouched));
    ranks[base + q.fact as usize] = mark_rank(
        all,
        q,
        select(q.first, Mark::Present, Mark::Untouched),
    );
}

// Writes the ranks of the steps into a table: they stand after those of the checks.
fn write_step_ranks(all: bool, q: Asked, masks: &[u64], ranks: &mut [u32])
    requires { ItemsRankable q masks.now ranks.old }
    ensures { Written (first_step q.none) (length ranks.old) (step_rank all q masks.now) ranks.old ranks.new }
{
    let base = q.none as usize + MOST_FACTS as usize;
    for (a, rank) in ranks[base..].iter_mut().enumerate() {
        *rank = mark_rank(all, q, step_mark(q, masks, a));
    }
}

// Writes the ranks of the items into a table, and that no sequence has a rank yet.
pub fn write_item_ranks(all: bool, q: Asked, masks: &[u64], ranks: &mut [u32])
    requires { ItemsRankable q masks.now ranks.old }
    ensures { ItemsRanked all q masks.now ranks.old ranks.new }
{
    ranks[..q.none as usize].fill(q.none);
    write_check_ranks(all, q, ranks);
    write_step_ranks(all, q, masks, ranks);
}

// Where the rank of an entry stands in a table: the sequences come first, then the checks, then the steps. Definition `slot_of` adds a base to
// the payload, so that the base is chosen as a number and nothing branches. The place is the same in all tables, so that it is worked out once
// where three are read. Of the kinds of entries that of steps is the least and that of checks the greatest.
fn slot_of(none: u32, w: u32) -> usize
    requires { is_entry w ≡ true }
    ensures { result ≡ slot_of none w }
{
    let kind = kind_of(w);
    let first_check = none as usize;
    let first_step = first_check + MOST_FACTS as usize;
    let check_or_call = select(Kind::Check.number() <= kind, first_check, 0);
    let base = select(kind <= Kind::StepEntry.number(), first_step, check_or_call);
    payload_of(w) as usize + base
}

// The rank of an entry.
pub fn rank_of(none: u32, ranks: &[u32], w: u32) -> u32
    requires { RankWithin none ranks.now w × (is_entry w ≡ true) }
    ensures { (past : ℕ) → result ≡ rank_in none past ranks.now (entry_of w) }
{
    ranks[slot_of(none, w)]
}

// Whether an entry has a rank.
pub fn passes(none: u32, ranks: &[u32], w: u32) -> bool
    requires { RankWithin none ranks.now w × (is_entry w ≡ true) }
    ensures { result ≡ pass_in none ranks.now (entry_of w) }
{
    rank_of(none, ranks, w) < none
}

// The traits of an entry.
pub fn traits_of(none: u32, ahead: &[u32], behind: &[u32], ranks: &[u32], w: u32) -> Traits
    requires { RankWithin none ahead.now w × RankWithin none behind.now w × RankWithin none ranks.now w × (is_entry w ≡ true) }
    ensures { result ≡ traits_in none ahead.now behind.now ranks.now (entry_of w) }
{
    Traits {
        rank: rank_of(none, ranks, w),
        ahead: passes(none, ahead, w),
        behind: passes(none, behind, w),
    }
}
