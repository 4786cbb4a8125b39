// The steps that a person applied to declared folders, which are the rights of steps that the person used.
ghost use Rattle.std.specs.Prelude.{◌≡◌, ◌+◌, ◌≤◌, ◌<◌};
ghost use Rattle.bits.specs.Bits.{mask_below};
ghost use Rattle.recorded.specs.Folders.{folders_of};
ghost use Rattle.recorded.specs.Gathering.{applied_on, applied_at, applied_below};
ghost use Rattle.recorded.specs.Recorded.{stepped_at};

use crate::{Folders, steps};
use bits::Word;
use history::History;
use policy::{Folder, Tables};

// The set of the steps that person s applied to folder o, whose entry is `folder`; to an undeclared folder, none.
fn applied_on(folder: Folder, h: &History, s: usize, o: usize) -> u16
    requires { (s < 64) × (o < 128) }
    ensures { result ≡ mask_below 16 (applied_on folder h.now s o) }
{
    if !folder.declared {
        return 0;
    }
    steps::steps_of(h, s, o)
}

// The set of the steps that person s, who stepped on these of the 64 folders from `first` on, applied to declared folders up to the last
// of them, if `before` is the set for the folders before them.
fn applied_over(t: &Tables, h: &History, s: usize, first: usize, stepped: u64, before: u16) -> u16
    requires { (s < 64) × (first + 64 ≤ 128)
        × (stepped ≡ mask_below 64 (λ i. stepped_at h.now s (first + i))) × (before ≡ applied_below t.now h.now s first) }
    ensures { result ≡ applied_below t.now h.now s (first + 64) }
{
    let mut steps = before;
    for i in bits::members(stepped) {
        let o = first + i;
        let folder = t.folders[o];
        steps |= applied_on(folder, h, s, o);
    }
    steps
}

// The set of the steps that person s, who stepped on these folders, applied to declared folders. Where there are none, no folder is
// looked up.
pub fn applied_by(t: &Tables, h: &History, s: usize, stepped: Folders) -> u16
    requires { (s < 64) × (stepped ≡ folders_of (stepped_at h.now s)) }
    ensures { result ≡ mask_below 16 (applied_at t.now h.now s) }
{
    if stepped.low == 0 && stepped.high == 0 {
        return 0;
    }
    let low = applied_over(t, h, s, 0, stepped.low, 0);
    applied_over(t, h, s, 64, stepped.high, low)
}

// The set of all steps.
pub const ALL_STEPS: u16 = 65535;

// The set of the steps that person s applied to folder o, whose entry is `folder`, if the person is among the steppers on it.
fn applied_if(folder: Folder, h: &History, s: usize, o: usize) -> u16
    requires { (s < 64) × (o < 128) }
    ensures { result ≡ mask_below 16 (applied_on folder h.now s o) }
{
    if !steps::steppers(h, o).bit(s) {
        return 0;
    }
    applied_on(folder, h, s, o)
}

// The set of the steps that person s applied to declared folders: folder after folder, until all steps are found.
pub fn steps_applied(t: &Tables, h: &History, s: usize) -> u16
    requires { s < 64 }
    ensures { result ≡ mask_below 16 (applied_at t.now h.now s) }
{
    let mut steps: u16 = 0;
    for o in 0..128 {
        let folder = t.folders[o];
        steps |= applied_if(folder, h, s, o);
        if steps == ALL_STEPS {
            return steps;
        }
    }
    steps
}
