// The members of a set of 64 numbers, one after another, the lowest first.
ghost use Rattle.std.specs.Prelude.{◌≡◌};
ghost use Rattle.std.specs.Iterator.{at_most};
ghost use Rattle.bits.specs.Lowest.{GivesLowest};

// The members that are still to come, as a set.
#[derive(Clone, Copy)]
pub struct MembersLeft(pub u64);

// The members of a set.
pub fn members(set: u64) -> MembersLeft
    ensures { result.0 ≡ set }
{
    MembersLeft(set)
}

impl Iterator for MembersLeft {
    type Item = usize;

    ghost next_gives = { λ s r t. GivesLowest s.0 r t.0 };

    // The set is a number that falls with each member that leaves it.
    ghost remaining = { λ s. at_most s.0 };

    fn next(&mut self) -> Option<usize> {
        if self.0 == 0 {
            return None;
        }
        let lowest = crate::lowest64(self.0);
        self.0 = crate::without_lowest64(self.0);
        Some(lowest)
    }
}
