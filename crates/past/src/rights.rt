// The rights that one person used by reads and writes. The pass visits the folders that the person read or wrote in, and no others, and
// stops as soon as no role holds the rights found so far and the new right that is asked for.
ghost use Rattle.std.specs.Prelude.{◌≡◌, true, ◌+◌, ◌%◌, ◌≤◌};
ghost use Rattle.bits.specs.Bits.{with_bit};
ghost use Rattle.policy.specs.Tables.{person_declared};
ghost use Rattle.policy.specs.Request.{set_of};
ghost use Rattle.rules.specs.Sets.{roles_in};
ghost use Rattle.past.specs.Found.{FoundOf};
ghost use Rattle.past.specs.Past.{rights_below};
ghost use Rattle.recorded.specs.Recorded.{EntryInBounds};
ghost use Rattle.past.specs.Turns.{rights_after, rights_visiting};

use bits::Word;
use history::History;
use policy::{Folder, GivenTables};

// The rights after a folder, whose entry is `folder` and which was read and written or not, if `before` are those before it: a declared
// folder adds the rights of the read and the write.
fn rights_after(folder: Folder, read: bool, wrote: bool, before: u64) -> u64
    requires { EntryInBounds folder }
    ensures { result ≡ rights_after folder read wrote before }
{
    if !folder.declared {
        return before;
    }
    let kind = usize::from(folder.kind);
    bits::with_bit64_if(wrote, bits::with_bit64_if(read, before, kind), 16 + kind)
}

// Whether some role holds the rights and a new one.
pub fn some_role_holds(roles: &[u64; 32], rights: u64, right: usize) -> bool
    ensures { result ≡ roles_in roles.now (with_bit rights (right % 64)) }
{
    rules::some_role_covers(roles, rights.with_bit(right))
}

// The rights after those of the 64 folders from `first` on that were read or written, if `before` are those before them: bit i of each word
// for folder first + i. Or, once no role holds all that was found and a new right, only this. Only a turn that found a right asks for a
// role. (Seven parameters: a struct of the tables, the roles and the right
// would be made in `judging` for these three functions alone.)
fn rights_visiting(
    t: &GivenTables,
    roles: &[u64; 32],
    right: usize,
    first: usize,
    read: u64,
    wrote: u64,
    before: u64,
) -> u64
    requires { first + 64 ≤ 128 }
    ensures { FoundOf roles.now (right % 64) (rights_visiting t.now.tables first read wrote before) result }
{
    let mut rights = before;
    for i in bits::members(read | wrote) {
        let folder = t.tables.folders[first + i];
        let more = rights_after(folder, read.bit(i), wrote.bit(i), rights);
        if more != rights && !some_role_holds(roles, more, right) {
            return more;
        }
        rights = more;
    }
    rights
}

// The rights that person s used by reads and writes of folders up to the last of the 64 from `first` on, if `before` were found on the
// folders before them; or, once no role holds all that was found and a new right, only this. Where the person did nothing on them, no role
// is asked for and no folder is looked up.
fn rights_over(
    t: &GivenTables,
    roles: &[u64; 32],
    h: &History,
    s: usize,
    right: usize,
    first: usize,
    before: u64,
) -> u64
    requires { (person_declared t.now.tables s ≡ true) × (first % 8 ≡ 0) × (first + 64 ≤ 128)
        × FoundOf roles.now (right % 64) (rights_below t.now.tables (set_of h.now) s first) before }
    ensures { FoundOf roles.now (right % 64) (rights_below t.now.tables (set_of h.now) s (first + 64)) result }
{
    let read = history::word_at(h, 16 * s + (first >> 3));
    let wrote = history::word_at(h, 1024 + 16 * s + (first >> 3));
    if read | wrote == 0 {
        return before;
    }
    if !some_role_holds(roles, before, right) {
        return before;
    }
    rights_visiting(t, roles, right, first, read, wrote, before)
}

// The rights that person s used by reads and writes; or, once no role holds all that was found and a new right, only this.
pub fn rights_of_accesses(
    t: &GivenTables,
    roles: &[u64; 32],
    h: &History,
    s: usize,
    right: usize,
) -> u64
    requires { person_declared t.now.tables s ≡ true }
    ensures { FoundOf roles.now (right % 64) (rights_below t.now.tables (set_of h.now) s 128) result }
{
    let mut rights: u64 = 0;
    for half in 0..2 {
        rights = rights_over(t, roles, h, s, right, 64 * half, rights);
    }
    rights
}
