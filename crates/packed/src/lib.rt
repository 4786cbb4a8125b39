// The tables as one array of numbers, which is lent and never copied: so the part of the reads in a level that a history gives takes them
// (crate `recorded`, and the timed test). No call packs its tables. Places: 0 to 127 the folders, 128 to 191 the persons' levels, 192
// to 255 the firms, 256 to 287 the rights of the roles, 288 to 303 the steps, 304 the mask, 305 the set of the declared persons, 306 that
// of the declared roles. (One array and no struct of arrays: the timed C function `timed_level_by_reads` takes it as 307 numbers, and the
// definition `tables_of` reads it so.)
#![tactic(auto)]

ghost use Rattle.std.specs.Prelude.{◌≡◌, ◌<◌};
ghost use Rattle.policy.specs.Tables.{person_at, folder_at};
ghost use Rattle.packed.specs.Packed.{tables_of};

use bits::Word;
use level::Level;
use policy::{Folder, Person};

// The tables, packed.
pub type Words = [u64; 307];

// The entry of folder o. A part of a number is cast, here and below: there is no From to a narrower number, and a TryFrom would have an Err
// that never comes.
pub fn folder(t: &Words, o: usize) -> Folder
    requires { o < 128 }
    ensures { result ≡ folder_at (tables_of t.now) o }
{
    let x = t[o];
    Folder {
        declared: x % 256 == 1,
        firm: (x / 256 % 256) as u8,
        kind: (x / 65536 % 256) as u8,
        level: Level((x / 16777216 % 65536) as u16),
        public: x.bit(40),
    }
}

// The entry of person s.
pub fn person(t: &Words, s: usize) -> Person
    requires { s < 64 }
    ensures { result ≡ person_at (tables_of t.now) s }
{
    Person {
        declared: t[305].bit(s),
        level: Level((t[128 + s] % 65536) as u16),
    }
}
