// Columns as sets of facts: union, difference, whether two have a fact in common, count, and whether a fact is in a column.
ghost use Rattle.std.specs.Prelude.{◌≡◌, ◌<◌};
ghost use Rattle.std.specs.Int.Bits.{bit_or};
ghost use Rattle.std.specs.Int.Count.{ones};
ghost use Rattle.column.specs.Sets.{difference, disjoint, in_column};

// The facts in one of two columns.
pub fn union(a: u64, b: u64) -> u64
    ensures { result ≡ bit_or a b }
{
    a | b
}

// The facts of `a` that are not in `b`.
pub fn without(a: u64, b: u64) -> u64
    ensures { result ≡ difference 64 a b }
{
    a & !b
}

// Whether no fact is in both columns.
pub fn apart(a: u64, b: u64) -> bool
    ensures { result ≡ disjoint a b }
{
    a & b == 0
}

// How many facts are in a column.
pub fn count(a: u64) -> u32
    ensures { result ≡ ones a }
{
    a.count_ones()
}

// Whether fact `f` is in a column.
#[tactic(auto, unfolding(crate::specs::Sets::in_column))]
pub fn holds(a: u64, f: u32) -> bool
    requires { f < 64 }
    ensures { result ≡ in_column a f }
{
    (a >> f) % 2 == 1
}
