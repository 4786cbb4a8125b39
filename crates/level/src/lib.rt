// Levels (document 01, "Levels"): a rank of 4 bits above a set of 12 compartments, in the 16 bits of a number.
#![tactic(auto)]

ghost use Rattle.std.specs.Prelude.{◌≡◌, ◌%◌};
ghost use Rattle.level.specs.Levels.{rank_of, compartments_of, level_of, compare_of, meet_of};

pub mod sets;

#[derive(Clone, Copy, Debug, PartialEq, Eq)]
pub struct Level(pub u16);

// How a level compares with another one, which is to be at least as high.
#[derive(Clone, Copy, Debug, PartialEq, Eq)]
pub enum Comparison {
    // It is at most the other.
    AtMost,
    // The other's rank is too low, also if a compartment is missing besides.
    RankTooLow,
    // The other's rank suffices, and a compartment is missing.
    CompartmentMissing,
}

impl Level {
    // Rank 0 and no compartment: at most every level.
    pub const LOWEST: Level = Level(0);
    // Rank 15 and every compartment: every level is at most this one.
    pub const HIGHEST: Level = Level(65535);

    // The level of a rank, taken modulo 16, and a set of compartments, taken modulo 4096.
    pub fn new(rank: u16, compartments: u16) -> Level
        ensures { result.0 ≡ level_of 12 (rank % 16) (compartments % 4096) }
    {
        Level(((rank & 0xf) << 12) | (compartments & 0xfff))
    }

    // The high 4 bits.
    pub fn rank(self) -> u16
        ensures { result ≡ rank_of 12 self.0 }
    {
        self.0 >> 12
    }

    // The low 12 bits, a bit for each compartment.
    pub fn compartments(self) -> u16
        ensures { result ≡ compartments_of 12 self.0 }
    {
        self.0 & 0xfff
    }

    // How self compares with other: at most it where the rank is at most the other's and every compartment is one of the other's. "At most"
    // is decided first, as one test (docs/PERFORMANCE.md has what that brings).
    pub fn compare(self, other: Level) -> Comparison
        ensures { result ≡ compare_of 12 self.0 other.0 }
    {
        let own = self.compartments();
        let others = other.compartments();
        let suffices = self.rank() <= other.rank();
        if suffices && own & others == own {
            return Comparison::AtMost;
        }
        if suffices {
            return Comparison::CompartmentMissing;
        }
        Comparison::RankTooLow
    }

    // The highest level that is at most both: the smaller rank, compared in its place above the compartments, and the common compartments.
    pub fn meet(self, other: Level) -> Level
        ensures { result.0 ≡ meet_of 12 self.0 other.0 }
    {
        let rank = (self.0 & 0xf000).min(other.0 & 0xf000);
        Level(rank | (self.compartments() & other.compartments()))
    }
}
