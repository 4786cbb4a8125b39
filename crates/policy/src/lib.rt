// The declared types of the monitor: the tables of a rulebook and what the calls return.
#![tactic(auto)]

use level::Level;

pub mod answer;
pub mod given_tables;
pub mod kind;
pub mod rule;

pub use answer::{Answer, GRANTED, Refusal, number_of};
pub use given_tables::GivenTables;
pub use kind::Kind;
pub use rule::{Rule, in_force};

// An entry that is not declared is marked so, and is no None: callers hand tables in, and the definition `given`, which is the check for
// 11, says that such an entry is zero. A folder's kind is a number of document 01, 0 to 15, with no names.
//
// A firm and its conflict class (document 01: "class of rivals").
#[derive(Clone, Copy)]
pub struct Firm {
    pub declared: bool,
    pub class: u8,
}

// A person and the person's first level.
#[derive(Clone, Copy)]
pub struct Person {
    pub declared: bool,
    pub level: Level,
}

// A folder, the firm that it belongs to, its kind, its level, and whether it is public (document 02, Point 1).
#[derive(Clone, Copy)]
pub struct Folder {
    pub declared: bool,
    pub firm: u8,
    pub kind: u8,
    pub level: Level,
    pub public: bool,
}

// A role and the set of its rights: bit r for right r.
#[derive(Clone, Copy)]
pub struct Role {
    pub declared: bool,
    pub rights: u64,
}

// The tables of a rulebook. Undeclared entries are zero and marked so; the entry of a step is the set of the steps that it enables.
#[derive(Clone, Copy)]
pub struct Tables {
    pub mask: u8,
    pub firms: [Firm; 64],
    pub persons: [Person; 64],
    pub folders: [Folder; 128],
    pub roles: [Role; 32],
    pub steps: [u16; 16],
}

// The number stands beside the rest in what the calls return: the definitions `load_book`, `ran`, `standing` and `IsPlan` speak of such
// records, and theorems of all four.
//
// What loading returns: 0 or the number of the refusal, the offset of the end record or the refused one, and the tables.
#[derive(Clone, Copy)]
pub struct Loaded {
    pub number: u8,
    pub offset: usize,
    pub tables: Tables,
}

// What a run returns: its own number, and how many of the answers that it wrote are 0 and how many are not.
#[derive(Clone, Copy)]
pub struct Ran {
    pub number: u8,
    pub granted: usize,
    pub refused: usize,
}

// A person's standing: the number, the current level, how many rights the person used and how many firms the person opened.
#[derive(Clone, Copy)]
pub struct Standing {
    pub number: u8,
    pub level: Level,
    pub rights: u32,
    pub firms: u32,
}

// A job of a list to be planned (document 02, Point 6): the kind of a request, its person, its folder or second person, and its step,
// which is passed over unless the kind is 19. Its four bytes stand in this order, as in C.
#[repr(C)]
#[derive(Clone, Copy)]
pub struct Job {
    pub action: u8,
    pub person: u8,
    pub target: u8,
    pub step: u8,
}

// What planning returns: the number, and the places of the jobs, from 0, in the order of putting; zeros after them, and with a refusal.
#[derive(Clone, Copy)]
pub struct Plan {
    pub number: u8,
    pub positions: [u8; 64],
}
