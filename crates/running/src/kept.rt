// A run that keeps what it has gathered: what persons did, what was done on folders and all levels are gathered once, and each granted
// request is added to them. What is done with the number of a request is a parameter (`Taking`). The loop is lent the tables, reads the
// entries of a request's own folder and firm, and hands these on; it takes all whole records of known kinds, so it tests none, and what
// is left, an unknown or cut record at most, is put alone.
ghost use Rattle.std.specs.Prelude.{List, ℕ, ◌≤◌, drop, ◌≡◌};
ghost use Rattle.policy.specs.declared.Folder.{Folder};
ghost use Rattle.policy.specs.declared.Tables.{Tables};
ghost use Rattle.policy.specs.Request.{set_of};
ghost use Rattle.policy.specs.Calls.{State, state, answers_due};
ghost use Rattle.request.specs.declared.Parsed.{Parsed};
ghost use Rattle.keeping.specs.Keeping.{FixedBy, Keeps};
ghost use Rattle.putting.specs.Running.{whole_end};
ghost use Rattle.running.specs.Taking.{Taken, TakenTo, TakingLaws};
ghost use Rattle.running.specs.Written.{written_lent, written_room, written_told, may_write, writes, written_laws};

use history::History;
use keeping::{Fixed, Kept};
use levels::Levels;
use policy::{Folder, GivenTables, Tables};
use putting::Progress;
use request::Parsed;

// What stays as it is during a run. It stands in the run that calls it, since a struct that is handed back may be copied.
#[inline(always)]
pub fn fixed(t: &GivenTables) -> Fixed
    ensures { FixedBy t.now.tables result }
{
    let steps = t.tables.steps;
    Fixed {
        mask: t.tables.mask,
        steps,
        holders: gathering::holders(&t.tables),
        classes: rules::classes(t),
    }
}

// What a run keeps, gathered from a history and levels; it stands in the run that calls it too.
#[inline(always)]
pub fn gathered(t: &GivenTables, h: &History, l: &Levels) -> Kept
    ensures { Keeps t.now.tables (set_of h.now) l.now result }
{
    let done = gathering::done(t, h);
    Kept {
        firms: gathering::firms(t, h),
        holding: gathering::holding(t, h),
        next: gathering::next(&t.tables, &done),
        done,
        sets: levels::sets::gather(&t.tables, l),
    }
}

// What a run does with the number of each request that it puts: it writes it (`Written`), or raises a count (crate `tallying`).
pub trait Taking<T> {
    ghost lent: { List ℕ → List T → Type 0 };

    ghost room: { List ℕ → List T → List ℕ };

    ghost so_far: { Tables → State → List ℕ → List T → ℕ → State → List ℕ → List T → Type 0 };

    ghost may: { List T → ℕ → Folder → Parsed → ℕ → Type 0 };

    ghost takes: { List T → ℕ → Folder → Parsed → ℕ → List T → Type 0 };

    // The number of request i, whose folder has this entry.
    fn take(told: &mut [T], i: usize, folder: Folder, r: Parsed, number: u8)
        requires { may told.old i folder r number }
        ensures { takes told.old i folder r number told.new };

    ghost laws: { TakingLaws room so_far lent may takes };
}

// The numbers are written one after another.
pub struct Written;

impl Taking<u8> for Written {
    ghost lent = { written_lent };

    ghost room = { written_room };

    ghost so_far = { written_told };

    ghost may = { may_write };

    ghost takes = { writes };

    fn take(told: &mut [u8], i: usize, folder: Folder, r: Parsed, number: u8) {
        told[i] = number;
    }

    ghost laws = { written_laws };
}

// Puts the requests one after another, each on the history and the sets that the one before it leaves, and takes their numbers, up to where
// the whole records end, so that one answer is left at most.
fn run_by<T, W: Taking<T>>(
    t: &GivenTables,
    fixed: &Fixed,
    kept: &mut Kept,
    h: &mut History,
    l: &Levels,
    requests: &[u8],
    told: &mut [T],
    end: usize,
) -> Progress
    requires { W.lent requests.now told.old × (end ≡ whole_end requests.now) × FixedBy t.now.tables fixed.now
        × Keeps t.now.tables (set_of h.old) l.now kept.old }
    ensures { Taken W.room W.so_far t.now.tables (state h.old l.now) requests.now told.old result.at result.answered result.granted
        h.new told.new kept.new
        × (answers_due (drop result.at requests.now) ≤ 1) }
{
    let mut at: usize = 0;
    let mut answered: usize = 0;
    let mut granted: usize = 0;
    // No `for`: each record tells where the next one stands, and an iterator over records would hold the same place.
    while at < end {
        let parsed = request::parse_whole(&requests[at..]);
        at += parsed.next;
        let folder = t.tables.folders[usize::from(parsed.target) % 128];
        let firm = t.tables.firms[usize::from(folder.firm) % 64];
        let class = fixed.classes[usize::from(firm.class) % 32];
        let number = keeping::put(fixed, class, folder, kept, h, parsed);
        W::take(told, answered, folder, parsed, number);
        answered += 1;
        granted += putting::granted_by(number);
    }
    Progress {
        at,
        answered,
        granted,
    }
}

// Runs the requests up to where the whole records end, so that one answer is left at most.
pub fn run<T, W: Taking<T>>(
    t: &GivenTables,
    h: &mut History,
    l: &mut Levels,
    requests: &[u8],
    told: &mut [T],
    end: usize,
) -> Progress
    requires { W.lent requests.now told.old × (end ≡ whole_end requests.now) }
    ensures { TakenTo W.room W.so_far t.now.tables (state h.old l.old) requests.now told.old result.at result.answered result.granted
        (state h.new l.new) told.new
        × (answers_due (drop result.at requests.now) ≤ 1) }
{
    let fixed = fixed(t);
    let mut kept = gathered(t, h, l);
    let ran = run_by::<T, W>(t, &fixed, &mut kept, h, l, requests, told, end);
    levels::sets::store(&kept.sets, l);
    ran
}
