// The calls of the monitor, on the fronts of the buffers that a command names. The buffers come one by one: a slice of a field behind a
// `&mut` that was taken apart is not covered by the borrow checker.
ghost use Rattle.std.specs.Counts.{IsPrefixLen};

use crate::{plans, reading};
use policy::{Ran, Standing, Tables};

// The number of a plan, how many of its jobs are granted in its order, and how many of the positions after them are not 0.
#[derive(Clone, Copy)]
pub struct Planned {
    pub number: u8,
    pub granted: u64,
    pub left_over: u64,
}

// The front of a history buffer.
fn history_front(s: &[u8], h: &[u8]) -> usize
    ensures { IsPrefixLen result h.now }
{
    reading::front(reading::pair(s, 1), h)
}

// The front of a level buffer.
fn levels_front(s: &[u8], l: &[u8]) -> usize
    ensures { IsPrefixLen result l.now }
{
    reading::front(usize::from(reading::byte(s, 3)), l)
}

// Blanks a history and levels.
pub fn blank(t: Tables, s: &[u8], h: &mut [u8], l: &mut [u8]) -> u8 {
    let front = history_front(s, h);
    let held = levels_front(s, l);
    monitor::blank(t, &mut h[..front], &mut l[..held])
}

// Judges a request.
pub fn judge(t: Tables, s: &[u8], h: &[u8], l: &[u8]) -> u8 {
    let front = history_front(s, h);
    let held = levels_front(s, l);
    monitor::judge(t, &h[..front], &l[..held], reading::after(s, 5))
}

// Puts a request.
pub fn put(t: Tables, s: &[u8], h: &mut [u8], l: &mut [u8]) -> u8 {
    let front = history_front(s, h);
    let held = levels_front(s, l);
    monitor::put(t, &mut h[..front], &mut l[..held], reading::after(s, 5))
}

// Runs requests.
pub fn run(t: Tables, s: &[u8], h: &mut [u8], l: &mut [u8], answers: &mut [u8]) -> Ran {
    let front = history_front(s, h);
    let held = levels_front(s, l);
    let room = reading::front(reading::pair(s, 4), answers);
    monitor::run(
        t,
        &mut h[..front],
        &mut l[..held],
        reading::after(s, 8),
        &mut answers[..room],
    )
}

// Asks for a person's standing.
pub fn standing(t: Tables, s: &[u8], h: &[u8], l: &[u8]) -> Standing {
    let front = history_front(s, h);
    let held = levels_front(s, l);
    monitor::standing(t, &h[..front], &l[..held], reading::byte(s, 4))
}

// Plans jobs, and puts them in the order handed back.
pub fn plan(t: Tables, s: &[u8], h: &mut [u8], l: &mut [u8]) -> Planned {
    let front = history_front(s, h);
    let held = levels_front(s, l);
    let jobs = reading::after(s, 6);
    let plan = monitor::plan_bytes(t, &h[..front], &l[..held], jobs);
    let positions = plan.positions;
    let n = plans::placed(plan.number, jobs.len() / 4);
    Planned {
        number: plan.number,
        granted: plans::put_jobs(t, &mut h[..front], &mut l[..held], jobs, &positions[..n]),
        left_over: plans::left_over(&positions[n..]),
    }
}
