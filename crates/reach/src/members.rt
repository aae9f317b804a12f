// The members of a set of sequences, as a list.
ghost use Rattle.std.specs.Prelude.{◌≡◌, ◌++◌, ◌+◌, ◌≤◌, ◌<◌, length, drop};
ghost use mir.Val.{bool_byte};
ghost use Rattle.general.specs.Scan.{passing};
ghost use Rattle.image.specs.Word.{most_sequences};
ghost use Rattle.callers.specs.Callers.{in_set};
ghost use Rattle.reach.specs.Queue.{MemberPut};

use callers::sets::Set;

// Writes sequence `c` at index `k` of the area, where it is in the set. Answers the index after it.
fn put_member(set: &Set, c: usize, area: &mut [u32], k: usize) -> usize
    requires { (c < most_sequences) × (k + bool_byte (in_set set.now c) ≤ length area.old) }
    ensures { MemberPut set.now c area.old k area.new result }
{
    if !set.contains(c) {
        return k;
    }
    area[k] = c as u32;
    k + 1
}

// Writes the sequences below `n` that are in the set, in rising order. Words past them stay.
pub fn write_members(set: &Set, n: usize, area: &mut [u32])
    requires { (n ≤ most_sequences) × (length (passing (in_set set.now) n) ≤ length area.old) }
    ensures { area.new ≡ passing (in_set set.now) n ++ drop (length (passing (in_set set.now) n)) area.old }
{
    let mut k = 0;
    for c in 0..n {
        k = put_member(set, c, area, k);
    }
}
