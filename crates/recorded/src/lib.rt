// What a history records of one person: the persons who stepped on each folder and the folders on which one person did (`steps`), the steps
// that a person applied (`applied`), and the current level (`levels`).
#![tactic(auto)]

pub mod applied;
pub mod levels;
pub mod steps;

// A set of folders: bit i of `low` for folder i, and bit i of `high` for folder 64 + i. Two words and no `u128`: each is visited and tested
// as a word of 64 bits, which is what the definition `fold_set` and its laws are about.
#[derive(Clone, Copy)]
pub struct Folders {
    pub low: u64,
    pub high: u64,
}
