// The steps that a person applied, found in a history's bytes. Step p on folder o by person s is bit s of the eight bytes from
// 2560 + 128 * o + 8 * p on (document 01, "History").
ghost use Rattle.std.specs.Prelude.{◌≡◌, ◌+◌, ◌≤◌, ◌<◌, get_or};
ghost use Rattle.bits.specs.Bits.{bit, mask_below};
ghost use Rattle.recorded.specs.Folders.{folders_of};
ghost use Rattle.recorded.specs.Gathering.{SteppersOf};
ghost use Rattle.recorded.specs.Recorded.{step_at, stepped_at};

use crate::Folders;
use bits::Word;
use history::History;

// The set of the steps that person s applied to folder o. The bits of two steps that follow one another are eight bytes apart: each turn
// shifts the bit of its step up to the step's number, all above the bits of the byte below the person's.
pub fn steps_of(h: &History, s: usize, o: usize) -> u16
    requires { (s < 64) × (o < 128) }
    ensures { result ≡ mask_below 16 (step_at h.now s o) }
{
    let first = 2560 + 128 * o + (s >> 3);
    let one = 0u8.with_bit(s);
    let mut steps: u32 = 0;
    for p in 0..16 {
        steps |= u32::from(h[first + 8 * p] & one) << p;
    }
    // A cast: there is no From to a narrower number, and a TryFrom would have an Err that never comes.
    (steps >> (s & 7)) as u16
}

// The set of the persons who stepped on folder o.
pub fn steppers(h: &History, o: usize) -> u64
    requires { o < 128 }
    ensures { result ≡ mask_below 64 (λ s. stepped_at h.now s o) }
{
    let mut set: u64 = 0;
    for step in 0..16 {
        set |= history::word_at(h, 2560 + 128 * o + 8 * step);
    }
    set
}

// For each folder the set of the persons who stepped on it.
pub fn all_steppers(h: &History) -> [u64; 128]
    ensures { SteppersOf h.now result }
{
    let mut all: [u64; 128] = [0; 128];
    for o in 0..128 {
        all[o] = steppers(h, o);
    }
    all
}

// The set of those of the 64 folders from `first` on whose steppers have person s among them: bit i for folder first + i.
fn stepped_over(steppers: &[u64; 128], s: usize, first: usize) -> u64
    requires { (s < 64) × (first + 64 ≤ 128) }
    ensures { result ≡ mask_below 64 (λ i. bit (get_or steppers.now (first + i) 0) s) }
{
    let mut set: u64 = 0;
    for i in 0..64 {
        set = bits::with_bit64_if(steppers[first + i].bit(s), set, i);
    }
    set
}

// The folders whose steppers have person s among them.
pub fn stepped_by(steppers: &[u64; 128], s: usize) -> Folders
    requires { s < 64 }
    ensures { result ≡ folders_of (λ o. bit (get_or steppers.now o 0) s) }
{
    Folders {
        low: stepped_over(steppers, s, 0),
        high: stepped_over(steppers, s, 64),
    }
}
