// What the tables say of a request's parties: a function that is lent the tables reads the entries at the request's own numbers and hands
// them on.
ghost use Rattle.std.specs.Prelude.{◌≡◌};
ghost use Rattle.questions.specs.Asking.{asked_of};

use policy::{Folder, Person};

// Whether a request's person and its folder are declared, and the folder's entry; and whether its person and a second one are declared.
#[derive(Clone, Copy)]
pub struct Asked {
    pub known: bool,
    pub folder: Folder,
    pub persons: bool,
}

// What the entries at a request's numbers say of its parties: of person s, and of o as a person and as a folder. Each number is taken
// modulo the length of its array to find its entry; one that is out of range is not declared.
#[tactic(auto, unfolding(crate::specs::Asking::asked_of))]
pub fn ask(s: usize, o: usize, person: Person, second: Person, folder: Folder) -> Asked
    ensures { result ≡ asked_of s o person second folder }
{
    let asks = (s < 64) & person.declared;
    Asked {
        known: asks & (o < 128) & folder.declared,
        folder,
        persons: asks & (o < 64) & second.declared,
    }
}
