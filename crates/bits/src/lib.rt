// Bits of numbers, bit 0 lowest. The number of a bit is taken modulo the width, as a shift takes it, so each function is total.
#![tactic(auto)]

ghost use Rattle.std.specs.Prelude.{◌≡◌, cond, ◌%◌};
ghost use Rattle.bits.specs.Bits.{bit, with_bit, without_bit};
ghost use Rattle.bits.specs.Bounded.{count_below, lowest_below};

mod sets;
mod visits;
mod words;

pub use sets::set_by;
pub use visits::{MembersLeft, members};
pub use words::Word;

// n, with bit k set if `add`. The test itself is shifted to the bit's place: in a loop over folders, a choice of two numbers takes longer.
pub fn with_bit64_if(add: bool, n: u64, k: usize) -> u64
    ensures { result ≡ cond add (with_bit n (k % 64)) n }
{
    n | (u64::from(add) << (k & 63))
}

// n with bit k cleared.
pub fn without_bit64(n: u64, k: usize) -> u64
    ensures { result ≡ without_bit n (k % 64) }
{
    if n.bit(k) {
        return n - (1 << (k & 63));
    }
    n
}

// How many bits of n are set.
pub fn count64(n: u64) -> u32
    ensures { result ≡ count_below 64 (bit n) }
{
    u64::count_ones(n)
}

// The number of the lowest bit of n that is set; 64 where none is.
pub fn lowest64(n: u64) -> usize
    ensures { result ≡ lowest_below 64 (bit n) }
{
    // A cast: there is no From of a u32 to a usize.
    u64::trailing_zeros(n) as usize
}

// n with the lowest of its set bits cleared: n - 1 has the bits below it set, and the bits above it as they are.
pub fn without_lowest64(n: u64) -> u64
    ensures { result ≡ without_bit n (lowest_below 64 (bit n)) }
{
    if n == 0 {
        return 0;
    }
    n & (n - 1)
}
