// Putting requests one after another (document 01, "Requests and calls"), each judged alone, on tables that a load gives, a history of
// 18,944 bytes and 128 bytes of levels (`alone`); how many answers a run has, and where its whole records end. A granted request is
// recorded, and a granted read or step lowers its person's level (document 02, Point 4).
#![tactic(auto)]

ghost use Rattle.std.specs.Prelude.{◌≡◌, cond, eqb};
ghost use Rattle.policy.specs.Calls.{answers_due};
ghost use Rattle.putting.specs.Running.{whole_end};

use policy::GRANTED;

pub mod alone;
mod recording;

// A run of fewer requests puts each alone, and gathers nothing for all persons.
pub const FEW: usize = 8;

// The answers that a run of the requests has: one for each record, and one for the unknown or cut record that ends it; and where the whole
// records end.
#[derive(Clone, Copy)]
pub struct Extent {
    pub due: usize,
    pub end: usize,
}

// The extent of a run of the requests.
pub fn extent_of(requests: &[u8]) -> Extent
    ensures { (result.due ≡ answers_due requests.now) × (result.end ≡ whole_end requests.now) }
{
    let mut at: usize = 0;
    let mut due: usize = 0;
    // Each record's own length tells where the next stands: no range or chunk of bytes gives these places.
    while at < requests.len() {
        let length = request::whole_length(&requests[at..]);
        due += 1;
        if length == 0 {
            return Extent { due, end: at };
        }
        at += length;
    }
    Extent { due, end: at }
}

// 1 for the number of a granted request, and 0 for any other. A number, and no answer: a run that keeps has numbers (crate branchfree).
pub fn granted_by(answer: u8) -> usize
    ensures { result ≡ cond (eqb answer 0) 1 0 }
{
    usize::from(answer == GRANTED)
}

// How far a run has come: where the next record stands, how many answers are written, and how many of them are grants.
#[derive(Clone, Copy)]
pub struct Progress {
    pub at: usize,
    pub answered: usize,
    pub granted: usize,
}

// The requests that a run granted, and those that it refused.
#[derive(Clone, Copy)]
pub struct Counts {
    pub granted: usize,
    pub refused: usize,
}
