// Recording a granted request: its bit in the history is set, and a read or a step lowers its person's level (document 02, Point 4).
ghost use Rattle.std.specs.Prelude.{◌≡◌, cond, ◌<◌};
ghost use Rattle.policy.specs.Request.{start, step, recorded};
ghost use Rattle.request.specs.Parsed.{access_by};
ghost use Rattle.putting.specs.Running.{lowered_to};

use level::Level;
use levels::Levels;

// A read of folder o, which has this level, by person s, or a write.
#[tactic(auto, unfolding(policy::specs::Request::recorded, crate::specs::Running::lowered_to))]
pub fn record_access(h: &mut [u8], l: &mut Levels, s: usize, o: usize, write: bool, level: Level)
    requires { (s < 64) × (o < 128) }
    ensures { (h.new ≡ recorded h.old (access_by write s o))
        × (l.new ≡ cond write l.old (lowered_to l.old s level.0)) }
{
    history::set_bit(h, request::access_index(write, s, o));
    if !write {
        levels::lower(l, s, level);
    }
}

// A start of person u by person s.
#[tactic(auto, unfolding(policy::specs::Request::recorded))]
pub fn record_start(h: &mut [u8], s: usize, u: usize)
    requires { (s < 64) × (u < 64) }
    ensures { h.new ≡ recorded h.old (start s u) }
{
    history::set_bit(h, request::start_index(s, u));
}

// Step p on folder o, which has this level, by person s.
#[tactic(auto, unfolding(policy::specs::Request::recorded, crate::specs::Running::lowered_to))]
pub fn record_step(h: &mut [u8], l: &mut Levels, s: usize, p: usize, o: usize, level: Level)
    requires { (s < 64) × (p < 16) × (o < 128) }
    ensures { (h.new ≡ recorded h.old (step s p o)) × (l.new ≡ lowered_to l.old s level.0) }
{
    history::set_bit(h, request::step_index(s, p, o));
    levels::lower(l, s, level);
}
