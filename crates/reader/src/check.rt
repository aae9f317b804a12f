// The check: refusals 1 to 7 and 13. The steps' part and the sequences' part are each read as a part of the image that begins in its middle.
ghost use Rattle.std.specs.Prelude.{◌≡◌, true, ◌+◌, ◌≤◌, ◌<◌, length, get_or, drop};
ghost use Rattle.rules.specs.Checked.{checked};
ghost use Rattle.rules.specs.Quick.{Counts, in_alternative, seen, up_to};
ghost use Rattle.rules.specs.Walk.{walk, ended, opening};
ghost use Rattle.reader.specs.Readers.{Run, KindRead, FirstShared, FactsRead, BodyRead, FoursRead, FourRight};
ghost use Rattle.image.specs.Kinds.{kind_number};
ghost use Rattle.image.specs.Word.{is_kind, head_of, most_words};

use column::sets::apart;
use column::with_fact;
use image::answer::{Checked, Head, Refusal};
use image::fours::all_four;
use image::word::{AT_ONCE, FEWEST_WORDS, Kind, MOST_WORDS, head_of, head_right, payload_of};
use rules::rules::{Earlier, inside_right};
use sum::payload::sum_right;

// A fingerprint has a bit for each remainder of a fact by this.
const REMAINDERS: u32 = 64;

// Where a reader of fact words of one kind stopped: the fingerprint of their facts, and the index.
#[derive(Clone, Copy)]
pub struct Facts {
    pub fingerprint: u64,
    pub next: usize,
}

// Where a reader of a sequence's words stopped: the word before, and the index.
#[derive(Clone, Copy)]
pub struct Body {
    pub last: u32,
    pub next: usize,
}

// The index of the first clear word whose fact a set word of its step names, or of the end of the clear words. The set words from `sets` on and
// the clear words from `clears` on ascend, so that each is looked at once.
fn first_shared(part: &[u32], sets: usize, clears: usize, end: usize) -> usize
    requires { Run part.now 3 sets clears × Run part.now 4 clears end }
    ensures { FirstShared part.now sets clears end result }
{
    let mut i = sets;
    let mut j = clears;
    // No `for`: at each turn one of two indices moves, and which one the words decide.
    while i < clears {
        if end <= j {
            return end;
        }
        let set = payload_of(part[i]);
        let cleared = payload_of(part[j]);
        if set == cleared {
            return j;
        }
        if set < cleared {
            i += 1;
        } else {
            j += 1;
        }
    }
    end
}

// Words between head and sum word, from the one at position `at` on, and the head, which counts no more than a payload may be.
#[derive(Clone, Copy)]
pub struct Part<'a> {
    pub head: Head,
    pub at: usize,
    pub words: &'a [u32],
    ghost counts: { Counts head },
    ghost within: { at + length words.now ≤ most_words },
}

impl Part<'_> {
    // Reads the fact words of one kind that stand from index `at` on, each of a fact that the head counts and greater than the one before it.
    // The words of a kind whose facts the head counts are one range of numbers.
    fn read_kind(&self, kind: Kind, at: usize) -> Facts
        requires { (at ≤ length self.now.words.now) × (1 ≤ kind_number kind) × (kind_number kind ≤ 4) }
        ensures { KindRead self.now.head self.now.words.now (kind_number kind) at result }
    {
        let start = kind.word(0);
        let end = start + self.head.facts;
        let mut low = start - 1;
        let mut fingerprint = 0;
        for next in at..self.words.len() {
            let w = self.words[next];
            if !((low < w) & (w < end)) {
                return Facts { fingerprint, next };
            }
            fingerprint = with_fact(fingerprint, w % REMAINDERS);
            low = w;
        }
        Facts {
            fingerprint,
            next: self.words.len(),
        }
    }

    // Reads the fact words of the step that the word at index `opener` opens, up to the first that is not right. Where the fingerprints of
    // what it sets and of what it clears have no bit in common, it clears nothing that it sets.
    fn read_facts(&self, opener: usize) -> usize
        requires { (opener < length self.now.words.now) × (is_kind 5 (get_or self.now.words.now opener 0) ≡ true) }
        ensures { FactsRead self.now.head self.now.words.now opener result }
    {
        let needs = self.read_kind(Kind::Needs, opener + 1);
        let sets = self.read_kind(Kind::Sets, needs.next);
        let clears = self.read_kind(Kind::Clears, sets.next);
        if apart(clears.fingerprint, sets.fingerprint) {
            return clears.next;
        }
        first_shared(self.words, needs.next, sets.next, clears.next)
    }

    // Reads the alternatives and entries that stand from index `at` on, after an alternative's opener or an entry `last`, one by one to the
    // first that is not right.
    fn read_rest(&self, last: u32, at: usize) -> Body
        requires { (at ≤ length self.now.words.now) × (in_alternative last ≡ true) }
        ensures { FoursRead self.now.head self.now.words.now last at result }
    {
        let mut before = last;
        for next in at..self.words.len() {
            let w = self.words[next];
            if !inside_right(self.head, w) {
                return Body { last: before, next };
            }
            before = w;
        }
        Body {
            last: before,
            next: self.words.len(),
        }
    }

    // Whether four words are right after an alternative's opener or an entry.
    fn four_right(&self, four: &[u32]) -> bool
        requires { length four.now ≡ 4 }
        ensures { result ≡ true → FourRight self.now.head four.now 0 }
    {
        all_four(four, 0, |w| inside_right(self.head, w))
    }

    // The same by fours that are right, and then one by one.
    fn read_fours(&self, last: u32, at: usize) -> Body
        requires { (at ≤ length self.now.words.now) × (in_alternative last ≡ true) }
        ensures { FoursRead self.now.head self.now.words.now last at result }
    {
        let mut before = last;
        let mut next = at;
        for four in self.words[at..].chunks_exact(AT_ONCE) {
            if !self.four_right(four) {
                break;
            }
            before = four[3];
            next += AT_ONCE;
        }
        self.read_rest(before, next)
    }

    // Reads the alternatives and entries that stand from index `at` on and are right: of such words there are most.
    fn read_body(&self, e: Earlier, at: usize) -> Body
        requires { at ≤ length self.now.words.now }
        ensures { BodyRead self.now.head self.now.words.now e at result }
    {
        let mut body = Body {
            last: e.last,
            next: at,
        };
        if e.sequences == 0 {
            return body;
        }
        // No `for`: the next word is the one at which another reader stopped.
        while body.next < self.words.len() {
            let w = self.words[body.next];
            if !e.body_right(self.head, body.last, w) {
                return body;
            }
            body = self.read_fours(w, body.next + 1);
        }
        body
    }

    // What is answered where all words are read: refusal 7 at the last word, or acceptance.
    fn ended(&self, e: Earlier) -> Checked
        ensures { result ≡ ended self.now.head (seen e 0) (self.now.at + length self.now.words.now) }
    {
        if (e.steps < self.head.steps) | (e.sequences < self.head.sequences) {
            return Err(Refusal::Missing((self.at + self.words.len()) as u32));
        }
        Ok(self.head)
    }

    // Reads the words from index `from` on to the end, each judged by each rule.
    fn read_words(&self, before: Earlier, from: usize) -> Checked
        requires { (from ≤ length self.now.words.now) × (before.steps ≤ self.now.at + from) × (before.sequences ≤ self.now.at + from) }
        ensures { result ≡ walk self.now.head (up_to self.now.words.now before from) (self.now.at + from) (drop from self.now.words.now) }
    {
        let mut e = before;
        for i in from..self.words.len() {
            if let Some(r) = e.first_fault(self.head, self.at, self.words, i) {
                return Err(r);
            }
            e = e.past(self.words[i]);
        }
        self.ended(e)
    }

    // Reads the sequences' part to its end, a sequence's words together. Where one begins with another word than it must, that is judged by
    // each rule.
    fn read_sequences(&self, before: Earlier) -> Checked
        requires { (before.steps ≤ self.now.at) × (before.sequences ≤ self.now.at) }
        ensures { result ≡ walk self.now.head (seen before 0) self.now.at self.now.words.now }
    {
        let mut e = before;
        let mut i = 0;
        // No `for`: the next opener stands where the reader of a sequence's words stopped.
        while i < self.words.len() {
            let w = self.words[i];
            if !e.sequence_right(self.head, w) {
                return self.read_words(e, i);
            }
            e = e.past(w);
            let body = self.read_body(e, i + 1);
            e = e.further_on(body.last);
            i = body.next;
        }
        self.ended(e)
    }

    // Reads the words from the first after the head on: the steps, the words of each together, and from the first sequence's opener on the sequences' part.
    // Of what a step sets that part knows nothing: no clear word may stand there.
    fn read_steps(&self, first: u32) -> Checked
        ensures { result ≡ walk self.now.head (opening first) self.now.at self.now.words.now }
    {
        let mut e = Earlier {
            steps: 0,
            sequences: 0,
            last: first,
        };
        let mut i = 0;
        // No `for`: the next opener stands where the reader of a step's fact words stopped.
        while i < self.words.len() {
            let w = self.words[i];
            if !e.step_right(self.head, w) {
                if Kind::Sequence.is_of(w) {
                    let rest = Part {
                        head: self.head,
                        at: self.at + i,
                        words: &self.words[i..],
                    };
                    return rest.read_sequences(e);
                }
                return self.read_words(e, i);
            }
            let next = self.read_facts(i);
            e = e.past(w).further_on(self.words[next - 1]);
            i = next;
        }
        self.ended(e)
    }
}

// Reads the words between head and sum word: refusals 4 to 7 and 13, or acceptance.
fn read(first: u32, words: &[u32]) -> Checked
    requires { length words.now < most_words }
    ensures { result ≡ walk (head_of first) (opening first) 1 words.now }
{
    let part = Part {
        head: head_of(first),
        at: 1,
        words,
    };
    part.read_steps(first)
}

// What the documents answer for an image: the head's counts, or the first of the refusals 1 to 7 and 13 that applies.
pub fn check(image: &[u32]) -> Checked
    ensures { result ≡ checked image.now }
{
    let n = image.len();
    if !(FEWEST_WORDS..=MOST_WORDS).contains(&n) {
        return Err(Refusal::Length);
    }
    let last = n - 1;
    if !sum_right(&image[..last], image[last]) {
        return Err(Refusal::SumWord(last as u32));
    }
    let first = image[0];
    if !head_right(first) {
        return Err(Refusal::HeadWord);
    }
    read(first, &image[1..last])
}
