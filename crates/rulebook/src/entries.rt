// The entries of the tables: as they stand in the empty book, as a record declares them, and as a load leaves them.
ghost use Rattle.std.specs.Prelude.{◌≡◌, Bool, replicate};
ghost use Rattle.std.specs.List.{list_all};
ghost use Rattle.policy.specs.Tables.{empty_tables};
ghost use Rattle.policy.specs.Rulebook.{made_public, firm_given, person_given, role_given};
ghost use Rattle.rulebook.specs.Entries.{
  new_firm,
  new_person,
  new_folder,
  new_role,
  folder_given_among,
  folders_given,
};

use level::Level;
use policy::{Firm, Folder, Person, Role, Tables};

// An array of one entry. It is made in a function of its own, where the entry is copied whole and not field by field. (Not that of the
// roles, which would be filled apart and then copied.)
fn all_of<T: Copy, const N: usize>(entry: T) -> [T; N]
    ensures { result ≡ replicate N entry }
{
    [entry; N]
}

// The tables of the empty book.
#[tactic(auto, unfolding(policy::specs::Tables::empty_tables))]
pub fn empty() -> Tables
    ensures { result ≡ empty_tables }
{
    let firm = Firm {
        declared: false,
        class: 0,
    };
    let person = Person {
        declared: false,
        level: Level(0),
    };
    let folder = Folder {
        declared: false,
        firm: 0,
        kind: 0,
        level: Level(0),
        public: false,
    };
    let role = Role {
        declared: false,
        rights: 0,
    };
    Tables {
        mask: 0,
        firms: all_of(firm),
        persons: all_of(person),
        folders: all_of(folder),
        roles: [role; 32],
        steps: [0; 16],
    }
}

// The entries that a record declares; a folder is not public, until a record of its own marks it so.
pub fn new_firm(class: u8) -> Firm
    ensures { result ≡ new_firm class }
{
    Firm {
        declared: true,
        class,
    }
}

pub fn new_person(level: u16) -> Person
    ensures { result ≡ new_person level }
{
    Person {
        declared: true,
        level: Level(level),
    }
}

pub fn new_folder(firm: u8, kind: u8, level: u16) -> Folder
    ensures { result ≡ new_folder firm kind level }
{
    Folder {
        declared: true,
        firm,
        kind,
        level: Level(level),
        public: false,
    }
}

// A folder's entry, marked public.
#[tactic(auto, unfolding(policy::specs::Rulebook::made_public))]
pub fn made_public(o: Folder) -> Folder
    ensures { result ≡ made_public o }
{
    Folder { public: true, ..o }
}

pub fn new_role(rights: u64) -> Role
    ensures { result ≡ new_role rights }
{
    Role {
        declared: true,
        rights,
    }
}

// An entry of the tables that a load leaves by itself: in range, and zero where it is not declared.
pub trait Entry: Copy {
    ghost as_left: { Self → Bool };

    fn given(self) -> bool
        ensures { result ≡ as_left self };
}

impl Entry for Firm {
    ghost as_left = { firm_given };

    #[tactic(auto, unfolding(policy::specs::Rulebook::firm_given))]
    fn given(self) -> bool {
        if self.declared {
            self.class <= 31
        } else {
            self.class == 0
        }
    }
}

impl Entry for Person {
    ghost as_left = { person_given };

    #[tactic(auto, unfolding(policy::specs::Rulebook::person_given))]
    fn given(self) -> bool {
        self.declared | (self.level.0 == 0)
    }
}

impl Entry for Role {
    ghost as_left = { role_given };

    #[tactic(auto, unfolding(policy::specs::Rulebook::role_given))]
    fn given(self) -> bool {
        self.declared | (self.rights == 0)
    }
}

// Whether every entry is as a load leaves it.
pub fn all_given<T: Entry, const N: usize>(entries: &[T; N]) -> bool
    ensures { result ≡ list_all T.as_left entries.now }
{
    entries.iter().all(|entry| entry.given())
}

// Whether a folder is as a load leaves it. This asks whether its firm is declared, so a folder is no `Entry`.
#[tactic(auto, unfolding(crate::specs::Entries::folder_given_among, crate::specs::Entries::folder_given_by))]
fn folder_given(firms: &[Firm; 64], o: Folder) -> bool
    ensures { result ≡ folder_given_among firms.now o }
{
    let f = usize::from(o.firm) % 64;
    if o.declared {
        (o.firm < 64) & firms[f].declared & (o.kind <= 15)
    } else {
        (o.firm == 0) & (o.kind == 0) & (o.level.0 == 0) & !o.public
    }
}

// Whether every folder is as a load leaves it.
pub fn folders_given(firms: &[Firm; 64], folders: &[Folder; 128]) -> bool
    ensures { result ≡ list_all (folder_given_among firms.now) folders.now }
{
    folders.iter().all(|folder| folder_given(firms, *folder))
}
