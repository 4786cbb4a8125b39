// A list of jobs as bytes for the code that plans, four for each: the list is lent as records, a slice of structs (document 02, Point 6).
#![tactic(auto)]

ghost use Rattle.std.specs.Prelude.{◌≡◌};
ghost use Rattle.jobs.specs.Packing.{none_stored, stored, packed_jobs};

use policy::Job;

// The length of a list, and the bytes of its first 65 jobs, then zeros. 65 jobs are enough to tell that there are more than 64.
// The length stays beside the bytes: `monitor::plan_packed` takes both, and no slice of the heap can hold them.
#[derive(Clone, Copy)]
pub struct Packed {
    pub len: usize,
    pub bytes: [u8; 260],
}

// A list of this length, before any of its jobs is stored.
fn start(len: usize) -> Packed
    ensures { result ≡ none_stored len }
{
    Packed {
        len,
        bytes: [0; 260],
    }
}

// Stores the job at place i of the list, where there is room for it.
#[tactic(auto, unfolding(crate::specs::Packing::stored, crate::specs::Packing::written))]
fn store(p: Packed, i: usize, job: Job) -> Packed
    ensures { result ≡ stored p i job }
{
    if i < 65 {
        let mut q = p;
        let four = [job.action, job.person, job.target, job.step];
        q.bytes[4 * i..4 * i + 4].copy_from_slice(&four);
        return q;
    }
    p
}

// Packs a list of jobs.
pub fn pack(jobs: &[Job]) -> Packed
    ensures { result ≡ packed_jobs jobs.now }
{
    let mut p = start(jobs.len());
    for (i, job) in jobs.iter().enumerate() {
        p = store(p, i, *job);
    }
    p
}
