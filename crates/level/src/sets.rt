// Levels as sets of bits (specs/Sets.antt), for a run of many requests: the meet of two levels is one "and", and each part of their
// comparison is one test of masked bits. Bits 0 to 14 are the rank in unary, bits 15 to 26 the compartments, and bit 27 is a mark.
ghost use Rattle.std.specs.Prelude.{◌≡◌, Bool, not, ◌||◌, ℕ, ◌<◌, leb, eqb};
ghost use Rattle.std.specs.Int.Bits.{bit_and};
ghost use Rattle.level.specs.Levels.{rank_of, compartments_of};
ghost use Rattle.level.specs.Sets.{level_set};

use crate::Level;

// The bits of a set where the rank stands.
const RANK: u64 = 0x7fff;

// The bits of a set where the compartments stand.
const COMPARTMENTS: u64 = 0xfff << 15;

// The number of the bit that is the mark.
const MARK: u32 = 27;

// The set of a level.
pub fn set_of(level: Level, mark: bool) -> u64
    ensures { result ≡ level_set level.0 mark }
{
    let above = u64::from(level.compartments()) | (u64::from(mark) << 12);
    ((1 << level.rank()) - 1) | (above << 15)
}

// The level of a set: the rank is the number of the lowest bit that is clear; 1 more has this bit set, and of those below it none.
pub fn level_of(set: u64) -> Level
    ensures { (a : ℕ) (mark : Bool) → a < 65536 → set ≡ level_set a mark → result.0 ≡ a }
{
    let rank = bits::lowest64((set & RANK) + 1) & 15;
    let compartments = (set >> 15) & 4095;
    // Casts: there is no From to a narrower number, and a TryFrom would have an Err that never comes.
    Level::new(rank as u16, compartments as u16)
}

// Whether the rank of the own set is below that of the needed one.
pub fn rank_too_low(needed: u64, own: u64) -> bool
    ensures { (a b : ℕ) (m n : Bool) → a < 65536 → b < 65536 → needed ≡ level_set a m → own ≡ level_set b n
        → result ≡ not (leb (rank_of 12 a) (rank_of 12 b)) }
{
    needed & own & RANK != needed & RANK
}

// Whether a compartment of the needed set is missing in the own one; the ranks do not matter.
pub fn compartment_missing(needed: u64, own: u64) -> bool
    ensures { (a b : ℕ) (m n : Bool) → a < 65536 → b < 65536 → needed ≡ level_set a m → own ≡ level_set b n
        → result ≡ not (eqb (bit_and (compartments_of 12 a) (compartments_of 12 b)) (compartments_of 12 a)) }
{
    needed & own & COMPARTMENTS != needed & COMPARTMENTS
}

// Whether one of the two sets is marked.
pub fn marked(needed: u64, own: u64) -> bool
    ensures { (a b : ℕ) (m n : Bool) → a < 65536 → b < 65536 → needed ≡ level_set a m → own ≡ level_set b n → result ≡ (m || n) }
{
    ((needed | own) >> MARK) & 1 == 1
}
