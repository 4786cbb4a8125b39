// Planning (document 02, Point 6): an order of a list's jobs in which the monitor grants all of them, on tables that a load gives. The jobs
// are bytes, four for each: action, person, target and step. They are sorted by the rules on pairs, and the order found is put once, on
// copies of the history and of the levels.
#![tactic(auto)]

ghost use Rattle.std.specs.Prelude.{◌≡◌, true, ◌&&◌, ◌*◌, ◌≤◌, leb, length};
ghost use Rattle.policy.specs.Calls.{state};
ghost use Rattle.policy.specs.Request.{request_of};
ghost use Rattle.policy.specs.Plans.{jobs_of, job_record, plannable, all_plannable, IsPlan};
ghost use Rattle.planning.specs.Planning.{planned_action, no_plan, plan_of, OrderOf};

use history::History;
use levels::Levels;
use listed::pairs;
use policy::{GivenTables, Job, Kind, Plan, Refusal, Tables};

mod trial;

// A refused plan.
pub fn no_plan(number: u8) -> Plan
    ensures { result ≡ no_plan number }
{
    Plan {
        number,
        positions: [0; 64],
    }
}

// Whether jobs of this kind are planned: a read, a write, or a step of at most 15.
#[tactic(auto, unfolding(crate::specs::Planning::planned_action))]
fn is_planned(job: Job) -> bool
    ensures { result ≡ planned_action job.action job.step }
{
    match Kind::try_from(job.action) {
        Ok(Kind::Read | Kind::Write) => true,
        Ok(Kind::Step) => job.step <= 15,
        Ok(Kind::Start) | Err(_) => false,
    }
}

// Whether a job can be planned.
fn is_plannable(t: &Tables, job: Job) -> bool
    ensures { result ≡ plannable t.now (request_of (job_record job)) }
{
    let person = t.persons[usize::from(job.person) % 64];
    let folder = t.folders[usize::from(job.target) % 128];
    let asks = (job.person < 64) & person.declared;
    let known = (job.target < 128) & folder.declared;
    (asks & known) & is_planned(job)
}

// Whether the list has at most 64 jobs, each whole, and each can be planned.
fn are_plannable(t: &Tables, jobs: &[u8]) -> bool
    ensures { result ≡ (leb (length (jobs_of jobs.now)) 64 && all_plannable t.now (jobs_of jobs.now)) }
{
    let left = jobs.len();
    if left > 256 {
        return false;
    }
    if left % 4 != 0 {
        return false;
    }
    for i in 0..left / 4 {
        if !is_plannable(t, listed::job_at(jobs, i)) {
            return false;
        }
    }
    true
}

// The n jobs in an order in which each may come before each later one.
fn order(t: &Tables, jobs: &[u8], n: usize) -> Option<[u8; 64]>
    requires { (n ≤ 64) × (length jobs.now ≡ 4 * n) × (all_plannable t.now (jobs_of jobs.now) ≡ true) }
    ensures { OrderOf t.now (jobs_of jobs.now) result }
{
    let sides = pairs::sides(t, jobs, n);
    let rows = pairs::rows(&sides, n);
    sorting::sort(&rows, n)
}

// The positions of n jobs that can be planned: in the order found, if putting them so is granted throughout.
fn sorted_positions(
    t: &GivenTables,
    h: &History,
    levels: &Levels,
    jobs: &[u8],
    n: usize,
) -> Result<[u8; 64], Refusal>
    requires { (n ≤ 64) × (length jobs.now ≡ 4 * n) × (all_plannable t.now.tables (jobs_of jobs.now) ≡ true) }
    ensures { IsPlan t.now.tables (state h.now levels.now) (jobs_of jobs.now) (plan_of result) }
{
    let positions = order(&t.tables, jobs, n).ok_or(Refusal::NoOrder)?;
    if !trial::is_granted(t, h, levels, jobs, &positions, n) {
        return Err(Refusal::NoOrder);
    }
    Ok(positions)
}

// The positions of the jobs in the order of putting, then zeros.
fn positions(t: &GivenTables, h: &[u8], levels: &[u8], jobs: &[u8]) -> Result<[u8; 64], Refusal>
    ensures { IsPlan t.now.tables (state h.now levels.now) (jobs_of jobs.now) (plan_of result) }
{
    let h = h.as_array().ok_or(Refusal::WrongLength)?;
    let levels = levels.as_array().ok_or(Refusal::WrongLevelsLength)?;
    if !are_plannable(&t.tables, jobs) {
        return Err(Refusal::NotPlannable);
    }
    sorted_positions(t, h, levels, jobs, jobs.len() / 4)
}

// A plan of the jobs.
pub fn plan(t: &GivenTables, h: &[u8], levels: &[u8], jobs: &[u8]) -> Plan
    ensures { IsPlan t.now.tables (state h.now levels.now) (jobs_of jobs.now) result }
{
    match positions(t, h, levels, jobs) {
        Ok(positions) => Plan {
            number: 0,
            positions,
        },
        Err(refusal) => no_plan(u8::from(refusal)),
    }
}
