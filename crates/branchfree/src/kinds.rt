// Requests placed with no jump on their kind, which cannot be foreseen: each kind has a row of the numbers by which its bit in a history,
// its level and its right are found (specs/Kinds.antt).
ghost use Rattle.std.specs.Prelude.{◌≡◌, ◌<◌};
ghost use Rattle.branchfree.specs.Kinds.{row_of, placed_by, asked_by, right_by, PlacedAs};

use request::Parsed;

// Where each number stands in a row.
const FIRST_INDEX: usize = 0;

const PERSON_FACTOR: usize = 1;

const PLACE_FACTOR: usize = 2;

const STEPS: usize = 3;

const FIRST_RIGHT: usize = 4;

const FOLDER_KINDS: usize = 5;

const PLACES: usize = 6;

pub const CHECKS: usize = 7;

pub const LOWERS: usize = 8;

pub const ACCESS: usize = 9;

const FIRST_SET: usize = 10;

pub const STEP: usize = 11;

const SIXTEENTHS: usize = 12;

// The rows of the four kinds, 16 numbers each: with 16, a shift finds the row of a kind.
static ROWS: [u64; 64] = [
    0,
    128,
    1,
    0,
    0,
    15,
    127,
    0,
    18446744073709551615,
    1,
    64,
    0,
    0,
    0,
    0,
    0,
    8192,
    128,
    1,
    0,
    16,
    15,
    127,
    12,
    0,
    1,
    64,
    0,
    0,
    0,
    0,
    0,
    16384,
    64,
    1,
    0,
    32,
    0,
    63,
    12,
    0,
    0,
    0,
    0,
    0,
    0,
    0,
    0,
    20480,
    1,
    1024,
    15,
    48,
    0,
    127,
    12,
    18446744073709551615,
    1,
    64,
    1,
    15,
    0,
    0,
    0,
];

// A number of the row of a kind.
pub fn row(kind: u8, j: usize) -> u64
    requires { j < 16 }
    ensures { result ≡ row_of kind j }
{
    ROWS[16 * (usize::from(kind) % 4) + j]
}

// A request placed: its numbers brought into range, where its level stands among the sets and its bit in a history, and 1 if a number was
// out of range.
#[derive(Clone, Copy)]
pub struct Placed {
    pub person: usize,
    pub place: usize,
    pub step: usize,
    pub set: usize,
    pub index: usize,
    pub outside: u64,
}

// Places a request. A word is cast to an index, here and below: there is no From for it, and a TryFrom would have an Err that never comes.
pub fn place(r: Parsed) -> Placed
    requires { (15 < r.kind) × (r.kind < 20) }
    ensures { (result ≡ placed_by r.kind r.person r.target r.step) × (r.step < 256)
        × PlacedAs (asked_by r.kind r.person r.target r.step) result }
{
    let kind = r.kind;
    let s = usize::from(r.person);
    let o = usize::from(r.target);
    let p = usize::from(r.step);
    let person = s & 63;
    let place = o & (row(kind, PLACES) as usize);
    let step = p & (row(kind, STEPS) as usize);
    let high = (p >> 4) & (row(kind, SIXTEENTHS) as usize);
    let first = row(kind, FIRST_INDEX) as usize;
    let by_person = row(kind, PERSON_FACTOR) as usize;
    let by_place = row(kind, PLACE_FACTOR) as usize;
    Placed {
        person,
        place,
        step,
        set: row(kind, FIRST_SET) as usize + place,
        index: first + by_person * person + by_place * place + 64 * step,
        outside: u64::from((s - person) + (o - place) + high != 0),
    }
}

// The right of a request on a folder of a kind.
pub fn right(kind: u8, folder: u8, p: usize) -> usize
    requires { (15 < kind) × (kind < 20) × (p < 16) }
    ensures { (result ≡ right_by kind folder p) × (result < 64) }
{
    let first = row(kind, FIRST_RIGHT) as usize;
    let folders = row(kind, FOLDER_KINDS) as usize;
    first + p + (usize::from(folder) & folders)
}
