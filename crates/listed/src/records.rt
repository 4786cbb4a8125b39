// The records of jobs in an order, one after another, as request bytes.
ghost use Rattle.std.specs.Prelude.{◌≡◌, cond, ◌+◌, ◌*◌, ◌≤◌, eqb, length};
ghost use Rattle.policy.specs.Plans.{job_record};
ghost use Rattle.listed.specs.Records.{Appended, PlacesBelow, WrittenBy};

use crate::job_at;
use policy::{Job, Kind};

// The third byte of a job's record: the step of a step, and otherwise the folder.
fn third(job: Job) -> u8
    ensures { result ≡ cond (eqb job.action 19) job.step job.target }
{
    if job.action == u8::from(Kind::Step) {
        job.step
    } else {
        job.target
    }
}

// The bytes of a job's record.
fn record_length(job: Job) -> usize
    ensures { (result ≡ cond (eqb job.action 19) 4 3) × (result ≤ 4) }
{
    if job.action == u8::from(Kind::Step) {
        4
    } else {
        3
    }
}

// Writes the record of a job at a place, and answers where it ends.
fn put_record(job: Job, out: &mut [u8], at: usize) -> usize
    requires { at + 4 ≤ length out.old }
    ensures { Appended (job_record job) at out.old result out.new }
{
    let four = [job.action, job.person, third(job), job.target];
    out[at..at + 4].copy_from_slice(&four);
    at + record_length(job)
}

// Writes the records of the jobs at the first n positions, and answers where they end.
pub fn put_records(jobs: &[u8], positions: &[u8; 64], n: usize, out: &mut [u8]) -> usize
    requires { (n ≤ 64) × (length jobs.now ≡ 4 * n) × PlacesBelow n positions.now × (256 ≤ length out.old) }
    ensures { WrittenBy jobs.now positions.now n (length out.old) result out.new }
{
    let mut at: usize = 0;
    for k in 0..n {
        let job = job_at(jobs, usize::from(positions[k]));
        at = put_record(job, out, at);
    }
    at
}
