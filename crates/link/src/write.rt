// The words of a chain: two for each link, written into the chain area.
ghost use Rattle.std.specs.Prelude.{◌≡◌, ◌++◌, ◌+◌, ◌*◌, ◌^◌, ◌≤◌, ◌<◌, length, get_or, drop};
ghost use Rattle.chains.specs.Link.{chain_words};
ghost use Rattle.question.specs.Answer.{link_length, by_rank};
ghost use Rattle.link.specs.Choice.{Opened, links_in, untouched_words, answer_in};
ghost use Rattle.question.specs.Reply.{Answered};

use crate::link::{chosen_alternative, chosen_link};
use question::asked::Mark;
use question::words::{LINK_WORDS, POSITION_WORD, UNTOUCHED_WORD, put_link};
use rank::read::Ranks;

// What the links of a chain are chosen by: the ranks, and the place of each sequence in the words that they are for.
#[derive(Clone, Copy)]
pub struct Chooser<'a> {
    pub by: Ranks<'a>,
    pub places: &'a [u32],
    pub ghost opened: { Opened by.part.now places.now },
}

impl Chooser<'_> {
    // The index of the word after the opener of sequence `c`.
    fn after_opener(&self, c: u32) -> usize
        ensures { result ≡ get_or self.now.places.now c 0 + 1 }
    {
        self.places
            .get(c as usize)
            .map_or(1, |opener| *opener as usize + 1)
    }

    // Writes the words of `count` links, the first about sequence `c`. Words past them stay.
    fn write_links(&self, area: &mut [u32], count: u32, c: u32)
        requires { (link_length * count ≤ length area.old) × (c < 2 ^ 28) }
        ensures { area.new ≡ chain_words (links_in self.now.by.q.none self.now.by.ahead.now self.now.by.behind.now self.now.by.ranks.now self.now.by.part.now self.now.places.now count c) ++ drop (link_length * count) area.old }
    {
        let mut d = c;
        for i in 0..count {
            let link = chosen_link(&self.by, self.after_opener(d), count - 1 - i);
            let at = LINK_WORDS * i as usize;
            put_link(area, at, d, link.alternative, POSITION_WORD + link.position);
            d = link.entry;
        }
    }

    // Writes the one link of a question that asks for no touch, where there is one to write.
    fn write_untouched(&self, area: &mut [u32], count: u32, c: u32)
        requires { (link_length * count ≤ length area.old) × (c < 2 ^ 28) × (c < length self.now.by.ranks.now) }
        ensures { area.new ≡ untouched_words self.now.by.q.none self.now.by.ranks.now self.now.by.part.now self.now.places.now count c area.old }
    {
        if 0 < count {
            let k = self.by.ranks[c as usize].saturating_sub(1);
            let alternative = chosen_alternative(&self.by.own(), self.after_opener(c), k);
            put_link(area, 0, c, alternative, UNTOUCHED_WORD);
        }
    }

    // Writes the chain of sequence `c` where it has one and the area has room for it. Answers its rank, by which the answer is told.
    pub fn write_chain(&self, area: &mut [u32], c: u32) -> u32
        requires { (c < 2 ^ 28) × (c < length self.now.by.ranks.now) }
        ensures { Answered (answer_in self.now.by.q self.now.by.ahead.now self.now.by.behind.now self.now.by.ranks.now self.now.by.part.now self.now.places.now c) area.old (by_rank self.now.by.q result (length area.old)) area.new }
    {
        let rank = self.by.ranks[c as usize];
        let count = self.by.q.shown_links(rank, area.len());
        match self.by.q.mark {
            Mark::Untouched => self.write_untouched(area, count, c),
            _ => self.write_links(area, count, c),
        }
        rank
    }
}
