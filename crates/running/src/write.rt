// Which sequences of an accepted image have a run.
ghost use Rattle.running.specs.Written.{RunningAsked, RunningWritten};

use crate::settle::RunVisits;
use callers::sets::Set;
use library::checked::Accepted;
use library::tables::write_places;

// Writes where each sequence of an accepted image stands. Answers the set of those that have a run.
pub fn write_running(accepted: &Accepted, places: &mut [u32]) -> Set
    requires { RunningAsked accepted.now.head places.old }
    ensures { RunningWritten accepted.now.head accepted.now.image.now places.old places.new result }
{
    let part = accepted.sequences_part();
    write_places(accepted.head, part, places);
    let visits = RunVisits {
        part,
        places,
        n: accepted.head.sequences as usize,
    };
    let mut runs = Set::default();
    visits.settle(&mut runs);
    runs
}
