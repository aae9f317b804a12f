// The tables of an accepted image, in lent areas.
ghost use Rattle.std.specs.Prelude.{◌≡◌, ◌++◌, ◌*◌, drop};
ghost use Rattle.library.specs.Library.{library_of};
ghost use Rattle.library.specs.Tables.{mask_words, masks};
ghost use Rattle.tables.specs.Tables.{MasksAsked, TablesAsked, Prepared};

use callers::write::write_callers;
use library::checked::Accepted;
use library::tables::{write_masks, write_places};
use order::finishing::visiting_order;

// Writes the steps' masks, of the facts of a block.
pub fn prepare_masks(accepted: &Accepted, block: u32, area: &mut [u64])
    requires { MasksAsked accepted.now.head area.old }
    ensures { area.new ≡ masks block (library_of accepted.now.image.now).steps ++ drop (mask_words * accepted.now.head.steps) area.old }
{
    write_masks(accepted.head, accepted.steps_part(), block, area);
}

// Writes the sequences' places, their callers and an order of visits.
pub fn prepare(accepted: &Accepted, places: &mut [u32], callers: &mut [u64], order: &mut [usize])
    requires { TablesAsked accepted.now.head places.old callers.old order.old }
    ensures { Prepared accepted.now.head accepted.now.image.now places.old places.new callers.new order.new }
{
    let n = accepted.head.sequences as usize;
    let part = accepted.sequences_part();
    write_places(accepted.head, part, places);
    write_callers(part, places, callers, n);
    visiting_order(callers, order, n);
}
