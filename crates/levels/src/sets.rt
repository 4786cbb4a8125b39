// The levels of a run as sets of bits (crate `level`, module `sets`): gathered once from a level buffer and the tables, and stored in the
// buffer at the end of the run. The set of person s stands at s, that of folder o at 64 + o, each marked where its owner is not declared.
ghost use Rattle.std.specs.Prelude.{◌≡◌, List, ℕ, ◌<◌};
ghost use Rattle.bits.specs.Filling.{Filled};
ghost use Rattle.policy.specs.Tables.{folder_at};
ghost use Rattle.levels.specs.Sets.{person_set, folder_set, LevelSets, LevelBuffer, HoldsLevels};

use crate::{Levels, entry, set_entry};
use level::sets::{level_of, set_of};
use policy::Tables;

// The sets of all persons.
fn put_persons(t: &Tables, l: &Levels, sets: &mut [u64; 192])
    ensures { Filled 0 64 (λ s x. x ≡ person_set t.now l.now s) sets.old sets.new }
{
    for s in 0..64 {
        let person = t.persons[s];
        sets[s] = set_of(entry(l, s), !person.declared);
    }
}

// The sets of all folders.
fn put_folders(t: &Tables, sets: &mut [u64; 192])
    ensures { Filled 64 128 (λ o x. (x ≡ folder_set t.now o) × ((folder_at t.now o).level.0 < 65536)) sets.old sets.new }
{
    for o in 0..128 {
        let folder = t.folders[o];
        sets[64 + o] = set_of(folder.level, !folder.declared);
    }
}

// The sets of all persons and folders.
pub fn gather(t: &Tables, l: &Levels) -> [u64; 192]
    ensures { LevelSets t.now l.now result }
{
    let mut sets: [u64; 192] = [0; 192];
    put_persons(t, l, &mut sets);
    put_folders(t, &mut sets);
    sets
}

// Stores the levels of the persons' sets: the buffer becomes the one whose levels these are.
pub fn store(sets: &[u64; 192], l: &mut Levels)
    ensures { (m : List ℕ) → LevelBuffer m → HoldsLevels sets.now m → l.new ≡ m }
{
    for s in 0..64 {
        set_entry(l, s, level_of(sets[s]));
    }
}
