// The chain call: refusals 1 to 7 and 9 to 13, a chain, or none.
ghost use Rattle.std.specs.Prelude.{◌<◌};
ghost use Rattle.settling.specs.Settling.{Scheduled};
ghost use Rattle.slot.specs.Slots.{ItemsRankable};
ghost use Rattle.rank.specs.Tables.{RanksVisitable, Ranked};
ghost use Rattle.chain.specs.Described.{FindAsked, AreasAsked, AnswerFound, Findable, EntriesMarked, Found};
ghost use Rattle.question.specs.Reply.{ChainCalled};

use image::word::{MOST_FACTS, MOST_SEQUENCES, MOST_STEPS};
use library::checked::Accepted;
use link::write::Chooser;
use question::answer::Chained;
use question::asked::{Asked, Mark, NO_RANK_ABOVE, in_range};
use rank::read::Ranks;
use rank::settle::RankVisits;
use reader::check::check;
use settling::settle::Schedule;
use slot::entry::write_item_ranks;
use tables::prepare::{prepare, prepare_masks};
use tables::size::{
    MOST_CALLERS, MOST_MASKS, MOST_PLACES, SMALL_CALLERS, SMALL_MASKS, SMALL_PLACES,
    SMALL_SEQUENCES, SMALL_STEPS, is_small,
};

// A table of ranks has a word for each sequence, two between, a word for the check of each fact that there may be, and a word for each step.
pub const SMALL_RANKS: usize = SMALL_SEQUENCES as usize
    + NO_RANK_ABOVE as usize
    + MOST_FACTS as usize
    + SMALL_STEPS as usize;

pub const MOST_RANKS: usize = MOST_SEQUENCES as usize
    + NO_RANK_ABOVE as usize
    + MOST_FACTS as usize
    + MOST_STEPS as usize;

// What ranks are worked out of: the masks of the steps, the words of the sequences' part, the place of each sequence there, and the schedule
// that settling goes by.
#[derive(Clone, Copy)]
struct Tables<'a> {
    masks: &'a [u64],
    part: &'a [u32],
    places: &'a [u32],
    schedule: Schedule<'a>,
}

impl Tables<'_> {
    // Ranks the items by one question and the sequences by another.
    fn rank(&self, all: bool, p: Asked, q: Asked, ahead: &[u32], behind: &[u32], ranks: &mut [u32])
        requires { ItemsRankable p self.now.masks.now ranks.old × RanksVisitable q self.now.schedule.n ahead.now behind.now ranks.old self.now.part.now self.now.places.now × Scheduled self.now.schedule.n self.now.part.now self.now.places.now self.now.schedule.callers.now self.now.schedule.order.now }
        ensures { Ranked all p q self.now.schedule.n self.now.masks.now ahead.now behind.now self.now.part.now self.now.places.now ranks.old ranks.new }
    {
        write_item_ranks(all, p, self.masks, ranks);
        let visits = RankVisits {
            q,
            ahead,
            behind,
            part: self.part,
            places: self.places,
        };
        visits.settle(&self.schedule, ranks);
    }

    // The tables of the entries that pass ahead of the position and behind it, for a question that asks for a touch: on the first side those
    // ahead can stay untouched and those behind have a run, on the last side the other way round.
    fn mark_entries(&self, q: Asked, blank: &[u32], ahead: &mut [u32], behind: &mut [u32])
        requires { Findable q self.now.schedule.n self.now.masks.now ahead.old behind.old blank.now self.now.part.now self.now.places.now self.now.schedule.callers.now self.now.schedule.order.now }
        ensures { EntriesMarked q self.now.schedule.n self.now.masks.now blank.now self.now.part.now self.now.places.now ahead.old behind.old ahead.new behind.new }
    {
        if q.mark != Mark::Untouched {
            let untouched = Asked {
                mark: Mark::Untouched,
                ..q
            };
            let any_run = Asked {
                mark: Mark::Run,
                ..q
            };
            self.rank(!q.first, untouched, any_run, blank, blank, ahead);
            self.rank(q.first, untouched, any_run, blank, blank, behind);
        }
    }

    // Ranks the sequences by the question and writes the chain of sequence `c`, with the tables that a question for a touch needs. One that
    // asks for no touch is answered by the depths of the sequences that can stay untouched, and by no other table. Answers the rank.
    fn find(
        &self,
        q: Asked,
        c: u32,
        ahead: &mut [u32],
        behind: &mut [u32],
        links: &mut [u32],
        area: &mut [u32],
    ) -> u32
        requires { Findable q self.now.schedule.n self.now.masks.now ahead.old behind.old links.old self.now.part.now self.now.places.now self.now.schedule.callers.now self.now.schedule.order.now × (c < self.now.schedule.n) }
        ensures { Found q self.now.schedule.n c self.now.masks.now self.now.part.now self.now.places.now ahead.old behind.old links.old area.old result area.new }
    {
        self.mark_entries(q, links, ahead, behind);
        self.rank(false, q, q, ahead, behind, links);
        let chooser = Chooser {
            by: Ranks {
                q,
                ahead,
                behind,
                ranks: links,
                part: self.part,
            },
            places: self.places,
        };
        chooser.write_chain(area, c)
    }
}

// Finds the answer to a question of sequence `c` of an accepted image, in areas of these sizes, by the masks of the block of its fact.
fn find_in<const MASKS: usize, const CALLERS: usize, const PLACES: usize, const RANKS: usize>(
    accepted: &Accepted,
    q: Asked,
    c: u32,
    area: &mut [u32],
) -> u32
    requires { FindAsked accepted.now.head q c × AreasAsked accepted.now.head q MASKS CALLERS PLACES RANKS }
    ensures { AnswerFound accepted.now.image.now q c area.old result area.new }
{
    let mut masks = [0u64; MASKS];
    let mut callers = [0u64; CALLERS];
    let mut places = [0u32; PLACES];
    let mut order = [0usize; PLACES];
    let mut ahead = [0u32; RANKS];
    let mut behind = [0u32; RANKS];
    let mut links = [0u32; RANKS];
    let n = accepted.head.sequences as usize;
    let words = q.none as usize + MOST_FACTS as usize + accepted.head.steps as usize;
    prepare_masks(accepted, q.fact_block(), &mut masks);
    prepare(accepted, &mut places, &mut callers, &mut order);
    let schedule = Schedule {
        n,
        callers: &callers,
        order: &order[..n],
    };
    let tables = Tables {
        masks: &masks,
        part: accepted.sequences_part(),
        places: &places,
        schedule,
    };
    tables.find(
        q,
        c,
        &mut ahead[..words],
        &mut behind[..words],
        &mut links[..words],
        area,
    )
}

// Finds the answer to a question of sequence `c` of an accepted image, in areas that have the room. Answers the rank of the sequence.
fn find(accepted: &Accepted, q: Asked, c: u32, area: &mut [u32]) -> u32
    requires { FindAsked accepted.now.head q c }
    ensures { AnswerFound accepted.now.image.now q c area.old result area.new }
{
    if is_small(accepted.head) {
        return find_in::<SMALL_MASKS, SMALL_CALLERS, SMALL_PLACES, SMALL_RANKS>(
            accepted, q, c, area,
        );
    }
    find_in::<MOST_MASKS, MOST_CALLERS, MOST_PLACES, MOST_RANKS>(accepted, q, c, area)
}

// Asks an accepted image: the sequence, the question and the fact are tested first.
fn ask(accepted: &Accepted, sequence: u64, question: u64, fact: u64, area: &mut [u32]) -> Chained
    ensures { ChainCalled accepted.now.image.now sequence question fact area.old result area.new }
{
    let h = accepted.head;
    if let Err(r) = in_range(h, sequence, question, fact) {
        return Chained::Refused(r);
    }
    let q = Asked::new(h, question, fact);
    let room = area.len();
    q.answer_by_rank(find(accepted, q, sequence as u32, area), room)
}

// The chain call: what it answers, and the words of the area after it, for every image, every number and every area.
pub fn chain(image: &[u32], sequence: u64, question: u64, fact: u64, area: &mut [u32]) -> Chained
    ensures { ChainCalled image.now sequence question fact area.old result area.new }
{
    match check(image) {
        Err(r) => Chained::Refused(r),
        Ok(head) => ask(&Accepted { image, head }, sequence, question, fact, area),
    }
}
