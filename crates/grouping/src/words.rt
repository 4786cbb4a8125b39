// Words of persons, found in a history's bytes: for each folder those who read it or wrote in it, and those who touched it at all; for
// starts those who made one; for each step those who applied it. A history has 128 bits for each person and kind of access, so the words
// of the persons are turned round to be words of the folders; the bits of steps stand by folder already.
ghost use Rattle.std.specs.Prelude.{◌≡◌, ◌+◌, ◌*◌, ◌%◌, ◌≤◌, ◌<◌};
ghost use Rattle.std.specs.Int.Bits.{bit_or};
ghost use Rattle.bits.specs.Bits.{mask_below};
ghost use Rattle.policy.specs.History.{bit_at};
ghost use Rattle.history.specs.Words.{word_at};
ghost use Rattle.recorded.specs.Gathering.{FirstAre};
ghost use Rattle.recorded.specs.Recorded.{started, touched_at};
ghost use Rattle.grouping.specs.Adding.{Added, applied_to, applied_in, recorded_in};

use crate::groups::{self, Groups};
use crate::turning;
use history::History;
use recorded::steps;
use std::array;

// The word of each person from byte `first` on, 16 bytes apart.
fn person_words(h: &History, first: usize) -> [u64; 64]
    requires { first ≤ 2048 }
    ensures { FirstAre 64 64 (λ s. word_at h.now (first + 16 * s)) result }
{
    array::from_fn(|s| history::word_at(h, first + 16 * s))
}

// The persons of each of the 64 folders whose bits stand from byte `first` on.
fn by_folder(h: &History, first: usize) -> [u64; 64]
    requires { first ≤ 2048 }
    ensures { FirstAre 64 64 (λ i. mask_below 64 (λ s. bit_at h.now (8 * first + 128 * s + i))) result }
{
    let rows = person_words(h, first);
    turning::turn(&rows)
}

// Adds to the set of each group, with what is above, the persons who have a bit for one of its folders, where the bits stand from byte
// `first` on.
pub fn add_recorded(h: &History, first: usize, groups: &Groups, above: usize, sets: &mut [u64; 81])
    requires { (first ≤ 1024) × (above ≤ 16) }
    ensures { Added (recorded_in groups.now above h.now (8 * first)) sets.old sets.new }
{
    let low = by_folder(h, first);
    groups::add_words(groups, 0, above, &low, sets);
    let high = by_folder(h, first + 8);
    groups::add_words(groups, 64, above, &high, sets);
}

// The folders, of 64, that each person read or wrote in.
fn access_words(h: &History, first: usize) -> [u64; 64]
    requires { first ≤ 1024 }
    ensures { FirstAre 64 64 (λ s. bit_or (word_at h.now (first + 16 * s)) (word_at h.now (1024 + first + 16 * s))) result }
{
    array::from_fn(|s| {
        history::word_at(h, first + 16 * s) | history::word_at(h, 1024 + first + 16 * s)
    })
}

// The persons who read each of the 64 folders from `first` on, wrote in it or stepped on it.
pub fn touchers(h: &History, first: usize) -> [u64; 64]
    requires { (first % 8 ≡ 0) × (first + 64 ≤ 128) }
    ensures { FirstAre 64 64 (λ i. mask_below 64 (λ s. touched_at h.now s (first + i))) result }
{
    let rows = access_words(h, first >> 3);
    let accessed = turning::turn(&rows);
    array::from_fn(|i| accessed[i] | steps::steppers(h, first + i))
}

// The persons who started one of a set of persons.
pub fn starters(h: &History, persons: u64) -> u64
    ensures { result ≡ mask_below 64 (started persons h.now) }
{
    bits::set_by(|s| history::word_at(h, 2048 + 8 * s) & persons != 0)
}

// Adds to the set of each step's right the persons who applied the step to folder o.
fn add_steps_on(h: &History, o: usize, sets: &mut [u64; 81])
    requires { o < 128 }
    ensures { Added (applied_to h.now o 16) sets.old sets.new }
{
    for p in 0..16 {
        sets[48 + p] |= history::word_at(h, 2560 + 128 * o + 8 * p);
    }
}

// Adds to the set of each step's right the persons who applied the step to a folder that has a group.
pub fn add_steps(h: &History, groups: &Groups, sets: &mut [u64; 81])
    ensures { Added (applied_in groups.now h.now 128) sets.old sets.new }
{
    for o in 0..128 {
        if groups.of(o) < 64 {
            add_steps_on(h, o, sets);
        }
    }
}
