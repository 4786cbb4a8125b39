// A person's current level from a history (document 01, "Levels", and document 02, Point 2): the meet of the first level and the levels of
// all folders that the person has read or stepped on. The calls take the level held ready (document 02, Point 4, crate `levels`) and go
// over no history for it; the timed test calls the part of the reads, and a later call will test stored levels against these.
ghost use Rattle.std.specs.Prelude.{◌≡◌, true, ◌+◌, ◌≤◌, ◌<◌};
ghost use Rattle.policy.specs.Tables.{person_declared};
ghost use Rattle.policy.specs.Request.{set_of};
ghost use Rattle.policy.specs.Rules.{current_level};
ghost use Rattle.packed.specs.Packed.{tables_of};
ghost use Rattle.recorded.specs.Folders.{folders_of};
ghost use Rattle.recorded.specs.Recorded.{read_at, stepped_at};
ghost use Rattle.recorded.specs.Levels.{level_after, level_over, level_by, level_by_set};

use crate::{Folders, steps};
use history::History;
use level::Level;
use packed::Words;
use policy::Folder;

// The level after a folder with this entry, which was read or stepped on: it lowers the level if it is declared.
fn level_after(folder: Folder, before: Level) -> Level
    ensures { result.0 ≡ level_after folder before.0 }
{
    if !folder.declared {
        return before;
    }
    let level = folder.level;
    before.meet(level)
}

// The level after those of the 64 folders from `first` on that are in a set: bit i for folder first + i.
fn level_over(t: &Words, set: u64, first: usize, before: Level) -> Level
    requires { first + 64 ≤ 128 }
    ensures { result.0 ≡ level_over (tables_of t.now) set first 64 before.0 }
{
    let mut level = before;
    for i in bits::members(set) {
        level = level_after(packed::folder(t, first + i), level);
    }
    level
}

// The level after the folders that person s read. Their bits are two words of the history, and only folders whose bit is set are looked at
// (document 02, Point 3). The crate `timed` hands it out for the timed test.
pub fn level_by_reads(t: &Words, h: &History, s: usize, before: Level) -> Level
    requires { s < 64 }
    ensures { result.0 ≡ level_by (tables_of t.now) (read_at h.now s) before.0 }
{
    let low = level_over(t, history::word_at(h, 16 * s), 0, before);
    level_over(t, history::word_at(h, 16 * s + 8), 64, low)
}

// The level after the folders on which a person stepped.
fn level_by_steps(t: &Words, stepped: Folders, before: Level) -> Level
    ensures { result.0 ≡ level_by_set (tables_of t.now) stepped before.0 }
{
    let low = level_over(t, stepped.low, 0, before);
    level_over(t, stepped.high, 64, low)
}

// The current level of person s, who stepped on these folders.
pub fn level_with(t: &Words, h: &History, s: usize, stepped: Folders) -> Level
    requires { (person_declared (tables_of t.now) s ≡ true) × (stepped ≡ folders_of (stepped_at h.now s)) }
    ensures { result.0 ≡ current_level (tables_of t.now) (set_of h.now) s }
{
    let person = packed::person(t, s);
    let first = person.level;
    level_by_steps(t, stepped, level_by_reads(t, h, s, first))
}

// The current level of person s.
pub fn current_level(t: &Words, h: &History, s: usize) -> Level
    requires { person_declared (tables_of t.now) s ≡ true }
    ensures { result.0 ≡ current_level (tables_of t.now) (set_of h.now) s }
{
    let steppers = steps::all_steppers(h);
    level_with(t, h, s, steps::stepped_by(&steppers, s))
}
