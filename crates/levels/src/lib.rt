// The level buffer (document 02, Point 4): each person's current level held ready, 2 bytes at 2 * s for person s, low byte first. `entry`
// and `set_entry` are the only functions that read and write an entry.
#![tactic(auto)]

ghost use Rattle.std.specs.Prelude.{◌≡◌, cond, ◌<◌};
ghost use Rattle.level.specs.Levels.{meet_of};
ghost use Rattle.policy.specs.Levels.{level_at, with_level_at, first_levels};

pub mod sets;

use level::Level;
use policy::{Person, Tables};

// The bytes of a level buffer.
pub const BYTES: usize = 128;

// A level buffer whose length is right.
pub type Levels = [u8; BYTES];

// The level stored for person s.
pub fn entry(l: &Levels, s: usize) -> Level
    requires { s < 64 }
    ensures { result.0 ≡ level_at l.now s }
{
    Level(u16::from_le_bytes([l[2 * s], l[2 * s + 1]]))
}

// Stores a level for person s.
pub fn set_entry(l: &mut Levels, s: usize, level: Level)
    requires { s < 64 }
    ensures { l.new ≡ with_level_at l.old s level.0 }
{
    let [low, high] = level.0.to_le_bytes();
    l[2 * s] = low;
    l[2 * s + 1] = high;
}

// Lowers the level stored for person s to its meet with another.
pub fn lower(l: &mut Levels, s: usize, level: Level)
    requires { s < 64 }
    ensures { l.new ≡ with_level_at l.old s (meet_of 12 (level_at l.old s) level.0) }
{
    let stored = entry(l, s);
    set_entry(l, s, stored.meet(level));
}

// The first level that a person's entry in the tables gives: zero for the undeclared.
fn first(person: Person) -> Level
    ensures { result.0 ≡ cond person.declared person.level.0 0 }
{
    if person.declared {
        return person.level;
    }
    Level::LOWEST
}

// Stores each person's first level.
pub fn set_first(t: &Tables, l: &mut Levels)
    ensures { l.new ≡ first_levels t.now l.old }
{
    for s in 0..64 {
        set_entry(l, s, first(t.persons[s]));
    }
}
