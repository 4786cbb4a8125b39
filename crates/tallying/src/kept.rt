// What a run over counts does with the number of each request: where `running` writes it, this raises a count.
ghost use Rattle.tallying.specs.Raised.{raised_lent, raised_room, raised_told, MayRaise, raises, raised_laws};

use policy::Folder;
use request::Parsed;
use running::kept::Taking;

// The count of each request is raised, by its firm and its number.
pub struct Raised;

impl Taking<u64> for Raised {
    ghost lent = { raised_lent };

    ghost room = { raised_room };

    ghost so_far = { raised_told };

    ghost may = { MayRaise };

    ghost takes = { raises };

    fn take(told: &mut [u64], i: usize, folder: Folder, r: Parsed, number: u8) {
        counts::count_at(told, counts::firm_of(folder, r), usize::from(number));
    }

    ghost laws = { raised_laws };
}
