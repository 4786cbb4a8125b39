// Putting the jobs of a plan in the order of its positions.
ghost use Rattle.std.specs.Prelude.{◌≤◌, length};

use crate::reading;
use policy::Tables;

// How many jobs a plan of n has an order for: none with a refusal.
pub fn placed(number: u8, n: usize) -> usize
    ensures { result ≤ 64 }
{
    if number == 0 { n.min(64) } else { 0 }
}

// The record of job i: a call passes over what follows it.
fn record(jobs: &[u8], i: u8) -> [u8; 4] {
    let job = reading::after(jobs, 4 * usize::from(i));
    let action = reading::byte(job, 0);
    let person = reading::byte(job, 1);
    let target = reading::byte(job, 2);
    let step = reading::byte(job, 3);
    if action == 19 {
        [action, person, step, target]
    } else {
        [action, person, target, step]
    }
}

// How many of the jobs at these positions, put one after another, are granted.
pub fn put_jobs(t: Tables, h: &mut [u8], l: &mut [u8], jobs: &[u8], positions: &[u8]) -> u64
    requires { length positions.now ≤ 64 }
{
    let mut granted: u64 = 0;
    for i in positions {
        let request = record(jobs, *i);
        granted += u64::from(monitor::put(t, h, l, &request) == 0);
    }
    granted
}

// How many of these positions are not 0.
pub fn left_over(positions: &[u8]) -> u64 {
    positions.iter().filter(|&&p| p != 0).count() as u64
}
