// Columns: 64-bit words in which bit f says something of fact f. Where there are more facts than a word has bits, they come in blocks of 64, and bit b
// of block k says it of fact 64 k + b. A column is a plain number and no type of its own: C reads the words of the cards that are made of columns.
#![tactic(auto)]

pub mod sets;

ghost use Rattle.std.specs.Prelude.{◌≡◌, ◌*◌, ◌^◌, ◌<◌};
ghost use Rattle.column.specs.Column.{with_fact, all_below};
ghost use Rattle.column.specs.Words.{with_fact_in, all_in};

// How many bits a word has: the facts of a block.
pub const BLOCK_FACTS: u32 = u64::BITS;

// The column with bit `f` set too.
pub fn with_fact(c: u64, f: u32) -> u64
    requires { f < 64 }
    ensures { result ≡ with_fact c f }
{
    c | (1u64 << f)
}

// The column of a block with fact `f` in it too, if it is one of the block's.
pub fn with_fact_in(c: u64, block: u32, f: u32) -> u64
    ensures { result ≡ with_fact_in block c f }
{
    if f / BLOCK_FACTS == block {
        with_fact(c, f % BLOCK_FACTS)
    } else {
        c
    }
}

// The column of all facts below `facts`: of every bit where there are as many of them as bits, or more.
pub fn all_below(facts: u64) -> u64
    ensures { result ≡ all_below 64 facts }
{
    if u64::from(BLOCK_FACTS) <= facts {
        u64::MAX
    } else {
        (1u64 << facts as u32) - 1
    }
}

// The column of a block's facts that are below `facts`.
pub fn all_in(facts: u64, block: u32) -> u64
    ensures { result ≡ all_in facts block }
{
    let from = u64::from(BLOCK_FACTS) * u64::from(block);
    all_below(facts.saturating_sub(from))
}
