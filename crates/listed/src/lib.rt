// A list of jobs as bytes, four for each: the job at a place, what the rules on pairs ask about each job and which of two may come before
// the other (`pairs`), and the records of the jobs in an order (`records`).
#![tactic(auto)]

ghost use Rattle.std.specs.Prelude.{◌≡◌, ◌+◌, ◌*◌, ◌≤◌, length};
ghost use Rattle.listed.specs.Pairs.{job_at};

use policy::Job;

pub mod pairs;
pub mod records;

// The job at place i of a list.
pub fn job_at(jobs: &[u8], i: usize) -> Job
    requires { 4 * i + 4 ≤ length jobs.now }
    ensures { result ≡ job_at jobs.now i }
{
    let at = 4 * i;
    Job {
        action: jobs[at],
        person: jobs[at + 1],
        target: jobs[at + 2],
        step: jobs[at + 3],
    }
}
