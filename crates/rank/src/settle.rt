// The visits of a table of ranks: a visit lowers the rank of a sequence by its alternatives. Settled by them, no visit lowers a rank.
ghost use Rattle.settling.specs.Settling.{Scheduled, Settles};
ghost use Rattle.general.specs.Numbers.{total};
ghost use Rattle.rank.specs.Tables.{RanksVisitable, visited_ranks};

use crate::read::Ranks;
use question::asked::Asked;
use settling::settle::{Schedule, Visits};

// What visits go by: the question, the ranks ahead and behind, the words of the sequences' part and the place of each sequence there.
#[derive(Clone, Copy)]
pub struct RankVisits<'a> {
    pub q: Asked,
    pub ahead: &'a [u32],
    pub behind: &'a [u32],
    pub part: &'a [u32],
    pub places: &'a [u32],
}

impl Visits for RankVisits<'_> {
    type Word = u32;

    ghost value = { λ t. t };

    ghost part = { λ v. v.part.now };

    ghost places = { λ v. v.places.now };

    ghost asked = { λ v n t. RanksVisitable v.q n v.ahead.now v.behind.now t v.part.now v.places.now };

    ghost visited = { λ v. visited_ranks v.q v.ahead.now v.behind.now v.part.now v.places.now };

    ghost weight = { total };

    // Lowers the rank of sequence `c` by its alternatives. Answers whether it fell.
    fn visit(&self, ranks: &mut [u32], c: usize) -> bool {
        let old = ranks[c];
        let at = self.places[c] as usize + 1;
        let by = Ranks {
            q: self.q,
            ahead: self.ahead,
            behind: self.behind,
            ranks,
            part: self.part,
        };
        let new = by.lowered_rank(at, old);
        ranks[c] = new;
        new < old
    }
}

impl RankVisits<'_> {
    // Visits sequences until no visit lowers a rank.
    pub fn settle(&self, by: &Schedule, ranks: &mut [u32])
        requires { RanksVisitable self.now.q by.now.n self.now.ahead.now self.now.behind.now ranks.old self.now.part.now self.now.places.now × Scheduled by.now.n self.now.part.now self.now.places.now by.now.callers.now by.now.order.now }
        ensures { Settles (visited_ranks self.now.q self.now.ahead.now self.now.behind.now self.now.part.now self.now.places.now) by.now.n ranks.old ranks.new }
    {
        by.settle(self, ranks);
    }
}
