// Putting an order of jobs once, on copies of the history and of the levels: nothing lent is written.
ghost use Rattle.std.specs.Prelude.{◌≡◌, true, ◌*◌, ◌≤◌, length};
ghost use Rattle.policy.specs.Calls.{state};
ghost use Rattle.policy.specs.Plans.{jobs_of, all_plannable};
ghost use Rattle.listed.specs.Records.{PlacesBelow, GrantedIn, GrantedBy};

use history::History;
use levels::Levels;
use listed::records;
use policy::GivenTables;

// Whether a run of the requests grants all of them.
fn run_grants(t: &GivenTables, h: &History, levels: &Levels, requests: &[u8]) -> bool
    requires { length requests.now ≤ 256 }
    ensures { GrantedIn t.now.tables (state h.now levels.now) requests.now result }
{
    let mut history = *h;
    let mut held = *levels;
    let mut answers = [0; 256];
    let ran = loaded::run(t, &mut history, &mut held, requests, &mut answers);
    ran.refused == 0
}

// Whether putting the n jobs in the order of the positions is granted throughout.
pub fn is_granted(
    t: &GivenTables,
    h: &History,
    levels: &Levels,
    jobs: &[u8],
    positions: &[u8; 64],
    n: usize,
) -> bool
    requires { (n ≤ 64) × (length jobs.now ≡ 4 * n) × PlacesBelow n positions.now
        × (all_plannable t.now.tables (jobs_of jobs.now) ≡ true) }
    ensures { GrantedBy t.now.tables (state h.now levels.now) (jobs_of jobs.now) positions.now n result }
{
    let mut requests = [0; 256];
    let end = records::put_records(jobs, positions, n, &mut requests);
    run_grants(t, h, levels, &requests[..end])
}
