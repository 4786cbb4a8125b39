// The parts of a put of a run, each without a jump on what is asked or answered: where the bit of a request stands and what its kind asks
// about (`kinds`), the checks that fail, each as a bit (`checks`), the first of them (`first`), and what a granted request changes
// (`updates`).
#![tactic(auto)]

pub mod checks;
pub mod first;
pub mod kinds;
pub mod updates;
