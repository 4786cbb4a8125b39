// What a person did: the rights used and the firms opened. The pass visits the folders that the person read, wrote in or stepped on, and no
// others; who stepped where, and by which steps, is found in the crate `recorded`. `wall` and `rights` find what the wall and the roles ask
// about for one request alone. Who is asked about is a declared person, where a clause says so. Indexes of bits
// (document 01, "History"), for person s: 128 * s + o for a read of folder o, 8192 more for a write, 16384 + 64 * s + u for a start of
// person u, 20480 + 64 * (16 * o + p) + s for step p on folder o. Rights: the folder's kind for a read, 16 + kind for a write, 32 for a
// start, 48 + p for step p.
#![tactic(auto)]

ghost use Rattle.std.specs.Prelude.{◌≡◌, true, ◌+◌, ◌%◌, ◌≤◌, ◌<◌};
ghost use Rattle.bits.specs.Bits.{mask_below};
ghost use Rattle.policy.specs.Tables.{person_declared};
ghost use Rattle.policy.specs.Request.{set_of};
ghost use Rattle.recorded.specs.Folders.{folders_of};
ghost use Rattle.recorded.specs.Gathering.{applied_at};
ghost use Rattle.past.specs.Past.{past_below, past_of};
ghost use Rattle.recorded.specs.Recorded.{EntryInBounds, stepped_at, started};
ghost use Rattle.past.specs.Turns.{past_with, past_visiting, rights_with};

use bits::Word;
use history::History;
use policy::{Folder, GivenTables, Tables};
use recorded::{Folders, applied, steps};

pub mod rights;
pub mod wall;

// The set of the rights used and the set of the firms opened: bit k for number k.
#[derive(Clone, Copy)]
pub struct Past {
    pub rights: u64,
    pub firms: u64,
}

// The set of the declared persons.
pub fn persons(t: &Tables) -> u64
    ensures { result ≡ mask_below 64 (person_declared t.now) }
{
    let mut set: u64 = 0;
    for s in 0..64 {
        set = bits::with_bit64_if(t.persons[s].declared, set, s);
    }
    set
}

// What a person did after a folder, whose entry is `folder` and which was read and written or not, if `before` is what the person did
// before it: a declared folder adds the rights of the read and the write and its firm.
fn past_with(folder: Folder, read: bool, wrote: bool, before: Past) -> Past
    requires { EntryInBounds folder }
    ensures { result ≡ past_with folder read wrote before }
{
    if !folder.declared {
        return before;
    }
    let kind = usize::from(folder.kind);
    let firm = usize::from(folder.firm);
    Past {
        rights: bits::with_bit64_if(
            wrote,
            bits::with_bit64_if(read, before.rights, kind),
            16 + kind,
        ),
        firms: before.firms.with_bit(firm),
    }
}

// What a person did after those of the 64 folders from `first` on that are in a set, if `before` is what the person did before them: bit i
// of each word for folder first + i, whether it was read, was written and is in the set.
fn past_visiting(
    t: &GivenTables,
    first: usize,
    read: u64,
    wrote: u64,
    set: u64,
    before: Past,
) -> Past
    requires { first + 64 ≤ 128 }
    ensures { result ≡ past_visiting t.now.tables first read wrote set before }
{
    let mut past = before;
    for i in bits::members(set) {
        let folder = t.tables.folders[first + i];
        past = past_with(folder, read.bit(i), wrote.bit(i), past);
    }
    past
}

// What person s, who stepped on these of the 64 folders from `first` on, did up to the last of them, if `before` is what the person did on
// the folders before them, without the rights of steps. Their reads are one word of the history, and their writes another. Where the
// person did nothing on them, no folder is looked up.
fn past_over(
    t: &GivenTables,
    h: &History,
    s: usize,
    first: usize,
    stepped: u64,
    before: Past,
) -> Past
    requires { (person_declared t.now.tables s ≡ true) × (first % 8 ≡ 0) × (first + 64 ≤ 128)
        × (stepped ≡ mask_below 64 (λ i. stepped_at h.now s (first + i))) × (before ≡ past_below t.now.tables (set_of h.now) s first) }
    ensures { result ≡ past_below t.now.tables (set_of h.now) s (first + 64) }
{
    let read = history::word_at(h, 16 * s + (first >> 3));
    let wrote = history::word_at(h, 1024 + 16 * s + (first >> 3));
    let set = read | wrote | stepped;
    if set == 0 {
        return before;
    }
    past_visiting(t, first, read, wrote, set, before)
}

// Whether person s started a person of a set: the starts of person s are one word of the history.
pub fn has_started(h: &History, s: usize, persons: u64) -> bool
    requires { s < 64 }
    ensures { result ≡ started persons h.now s }
{
    history::word_at(h, 2048 + 8 * s) & persons != 0
}

// Whether person s started a declared person. Where the person started nobody, the declared persons are not gathered.
pub fn has_started_declared(t: &Tables, h: &History, s: usize) -> bool
    requires { s < 64 }
    ensures { result ≡ started (mask_below 64 (person_declared t.now)) h.now s }
{
    let started = history::word_at(h, 2048 + 8 * s);
    if started == 0 {
        return false;
    }
    started & persons(t) != 0
}

// The rights, with those of a set of steps and that of starts.
pub fn rights_with(rights: u64, steps: u16, starts: bool) -> u64
    ensures { result ≡ rights_with rights steps starts }
{
    bits::with_bit64_if(starts, rights | (u64::from(steps) << 48), 32)
}

// What person s did, who stepped on these folders and applied these steps to declared folders, where `persons` are the declared persons:
// the folders that the person read, wrote or stepped on, then the steps and the starts.
fn past_of(
    t: &GivenTables,
    h: &History,
    s: usize,
    persons: u64,
    stepped: Folders,
    applied: u16,
) -> Past
    requires { (person_declared t.now.tables s ≡ true) × (persons ≡ mask_below 64 (person_declared t.now.tables))
        × (stepped ≡ folders_of (stepped_at h.now s)) × (applied ≡ mask_below 16 (applied_at t.now.tables h.now s)) }
    ensures { result ≡ past_of t.now.tables (set_of h.now) s }
{
    let none = Past {
        rights: 0,
        firms: 0,
    };
    let low = past_over(t, h, s, 0, stepped.low, none);
    let past = past_over(t, h, s, 64, stepped.high, low);
    Past {
        rights: rights_with(past.rights, applied, has_started(h, s, persons)),
        firms: past.firms,
    }
}

// What person s did, gathered for this person alone.
pub fn past_alone(t: &GivenTables, h: &History, s: usize) -> Past
    requires { person_declared t.now.tables s ≡ true }
    ensures { result ≡ past_of t.now.tables (set_of h.now) s }
{
    let steppers = steps::all_steppers(h);
    let stepped = steps::stepped_by(&steppers, s);
    past_of(
        t,
        h,
        s,
        persons(&t.tables),
        stepped,
        applied::applied_by(&t.tables, h, s, stepped),
    )
}
