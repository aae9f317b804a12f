// The endless call: refusals 1 to 7, 9, 13, 16 and 17, or the list of the sequences without a run that one reaches.
ghost use Rattle.std.specs.Prelude.{◌<◌, ◌≡◌, false, length};
ghost use Rattle.library.specs.Library.{library_of};
ghost use Rattle.runs.specs.Possible.{has_run};
ghost use Rattle.endless.specs.Answer.{EndlessCalled, Explains};
ghost use Rattle.endless.specs.Marked.{Marked};

use callers::sets::Set;
use image::answer::Refusal;
use library::checked::Accepted;
use reach::found::reach;
use reach::members::write_members;
use reader::check::check;
use running::write::write_running;
use tables::size::MOST_PLACES;

// Lists what sequence `c` reaches, which has no run, where the area has room for it. Answers how many are listed.
fn list_reached(
    accepted: &Accepted,
    places: &[u32],
    runs: &Set,
    c: usize,
    area: &mut [u32],
) -> Result<usize, Refusal>
    requires { Marked accepted.now.head accepted.now.image.now places.now runs.now × (c < accepted.now.head.sequences)
        × (has_run (library_of accepted.now.image.now) c ≡ false) }
    ensures { Explains (library_of accepted.now.image.now) c area.old result area.new }
{
    let n = accepted.head.sequences as usize;
    let mut queue = [0usize; MOST_PLACES];
    let reached = reach(accepted.sequences_part(), places, runs, &mut queue, n, c);
    if area.len() < reached.count {
        return Err(Refusal::ListArea);
    }
    write_members(&reached.set, n, area);
    Ok(reached.count)
}

// Explains why sequence `c` of an accepted image has no run, if it has none.
fn explain(accepted: &Accepted, c: usize, area: &mut [u32]) -> Result<usize, Refusal>
    requires { c < accepted.now.head.sequences }
    ensures { Explains (library_of accepted.now.image.now) c area.old result area.new }
{
    let mut places = [0u32; MOST_PLACES];
    let runs = write_running(accepted, &mut places);
    if runs.contains(c) {
        return Err(Refusal::HasRun);
    }
    list_reached(accepted, &places, &runs, c, area)
}

// Asks an accepted image: the sequence is tested first.
fn ask(accepted: &Accepted, sequence: u64, area: &mut [u32]) -> Result<usize, Refusal>
    ensures { EndlessCalled accepted.now.image.now sequence area.old result area.new }
{
    if u64::from(accepted.head.sequences) <= sequence {
        return Err(Refusal::Sequence);
    }
    explain(accepted, sequence as usize, area)
}

// The endless call: how many sequences it lists, or the first refusal that applies, and the words of the area after it, for every image, every
// number and every area.
pub fn endless(image: &[u32], sequence: u64, area: &mut [u32]) -> Result<usize, Refusal>
    ensures { EndlessCalled image.now sequence area.old result area.new }
{
    let head = check(image)?;
    ask(&Accepted { image, head }, sequence, area)
}
