// The choice of a link: "Among equally good choices a link takes the highest alternative, then the lowest position."
ghost use Rattle.std.specs.Prelude.{◌≡◌, ◌≤◌, length, drop};
ghost use Rattle.image.specs.Word.{most_words};
ghost use Rattle.library.specs.Library.{entries_from, alternatives_from};
ghost use Rattle.rank.specs.Walk.{tail_from};
ghost use Rattle.slot.specs.Slots.{pass_in};
ghost use Rattle.rank.specs.Tables.{Rankable};
ghost use Rattle.link.specs.Choice.{alternative_in, Chosen};

use image::word::payload_of;
use rank::read::{Ranks, Table};
use slot::entry::passes;
use walk::sequence::{alternatives_of, opener_before, part_entry, select};

// An alternative, the position of an entry there, and the number that the entry names.
#[derive(Clone, Copy)]
pub struct Choice {
    pub alternative: u32,
    pub position: u32,
    pub entry: u32,
}

// The index from which on all entries pass as those behind a position, for the entries that these words begin with.
fn tail_from(none: u32, behind: &[u32], words: &[u32]) -> usize
    requires { Rankable none behind.now words.now }
    ensures { result ≡ tail_from (pass_in none behind.now) 0 0 (entries_from words.now) }
{
    let mut start = 0;
    for (i, &w) in words.iter().enumerate() {
        if !part_entry(w) {
            break;
        }
        start = select(passes(none, behind, w), start, i + 1);
    }
    start
}

// The last alternative, then its first position, that comes to no more than `k`, among the alternatives that stand from index `at` on. Document
// 01 asks for nested loops here, left by label with the chosen link. Where no alternative fits, definition `newest` names the number past the
// last one, so that the result is no Option.
pub fn chosen_link(by: &Ranks, at: usize, k: u32) -> Choice
    requires { (at ≤ length by.now.part.now) × (length by.now.part.now ≤ most_words) }
    ensures { Chosen by.now.q.none by.now.ahead.now by.now.behind.now by.now.ranks.now by.now.part.now at k result }
{
    let all = alternatives_of(by.part, at);
    let mut opener = all.last;
    'found: {
        for alternative in (0..all.count).rev() {
            let words = &by.part[opener + 1..];
            let tail = tail_from(by.q.none, by.behind, words);
            let mut ok = true;
            for (position, &e) in words.iter().enumerate() {
                if !part_entry(e) {
                    break;
                }
                let t = by.traits(e);
                if ok & (tail <= position + 1) & (t.rank <= k) {
                    break 'found Choice {
                        alternative,
                        position: position as u32,
                        entry: payload_of(e),
                    };
                }
                ok &= t.ahead;
            }
            opener = opener_before(by.part, opener);
        }
        Choice {
            alternative: all.count,
            position: 0,
            entry: 0,
        }
    }
}

// The last alternative whose greatest depth is no more than `k`, among those that stand from index `at` on; where none is that shallow, the
// number past the last one, which definition `alternative_in` names, so that the result is no Option.
pub fn chosen_alternative(by: &Table, at: usize, k: u32) -> u32
    requires { (at ≤ length by.now.part.now) × (length by.now.part.now ≤ most_words) }
    ensures { (result ≡ alternative_in by.now.none by.now.ranks.now k (alternatives_from (drop at by.now.part.now))) × (result ≤ most_words) }
{
    let all = alternatives_of(by.part, at);
    let mut opener = all.last;
    for alternative in (0..all.count).rev() {
        if by.greatest_depth(opener + 1).value <= k {
            return alternative;
        }
        opener = opener_before(by.part, opener);
    }
    all.count
}
