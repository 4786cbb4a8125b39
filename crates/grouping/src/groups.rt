// Folders by group: each folder that counts has a group below 64, its firm or the right of a read or of a write; any other folder has 64.
// Words of persons, one for each folder, are joined to sets of persons, one for each group.
ghost use Rattle.std.specs.Prelude.{◌≡◌, ℕ, ◌+◌, ◌<◌, ◌≤◌, List, get_or};
ghost use Rattle.grouping.specs.Adding.{Added, GroupsFit, grouped};
ghost use Rattle.grouping.specs.Groups.{Grouped, group_of, firm_group, kind_group};

use policy::GivenTables;
use std::array;
use std::marker::Model;

// The group of each folder: a number below 64, or 64 where the folder counts in none. That is no Option, since `add_words` adds without a
// jump on whether a folder counts: the sets from 64 on take the others.
#[derive(Drop)]
pub struct Groups {
    numbers: [usize; 128],
}

impl Model for Groups {
    ghost Value = { List ℕ };

    ghost view = { λ g. g.numbers };

    ghost invariant = { λ g. GroupsFit g.numbers };
}

impl Groups {
    // The group of folder o.
    pub fn of(&self, o: usize) -> usize
        requires { o < 128 }
        ensures { (result ≡ get_or self.now o 0) × (result < 65) }
    {
        self.numbers[o]
    }
}

// A number as a group, if it counts; otherwise 64.
fn group(counts: bool, number: usize) -> usize
    ensures { result ≡ group_of counts number }
{
    if counts {
        return number;
    }
    64
}

// The firm of each declared folder that is not public.
pub fn firm_groups(t: &GivenTables) -> Groups
    ensures { Grouped (firm_group t.now.tables) result }
{
    let numbers = array::from_fn(|o| {
        let folder = t.tables.folders[o];
        group(folder.declared & !folder.public, usize::from(folder.firm))
    });
    Groups { numbers }
}

// The kind of each declared folder.
pub fn kind_groups(t: &GivenTables) -> Groups
    ensures { Grouped (kind_group t.now.tables) result }
{
    let numbers = array::from_fn(|o| {
        let folder = t.tables.folders[o];
        group(folder.declared, usize::from(folder.kind))
    });
    Groups { numbers }
}

// Adds to the set of each group the persons of its folders: a word for each of the 64 folders from `first` on. The set of a group has its
// number, and `above`; the sets from 64 on are those of folders that count in no group.
pub fn add_words(
    groups: &Groups,
    first: usize,
    above: usize,
    words: &[u64; 64],
    sets: &mut [u64; 81],
)
    requires { (first + 64 ≤ 128) × (above ≤ 16) }
    ensures { Added (grouped groups.now first above words.now 64) sets.old sets.new }
{
    for i in 0..64 {
        let g = above + groups.of(first + i);
        sets[g] |= words[i];
    }
}
