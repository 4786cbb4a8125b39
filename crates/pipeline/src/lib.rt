// The pipeline (document 01, "Four rules"): the steps done on a folder, and whether one more step is permitted, over the sets of the steps
// that each step enables.
#![tactic(auto)]

ghost use Rattle.std.specs.Prelude.{◌≡◌, not, cond, ◌%◌, ◌<◌, eqb};
ghost use Rattle.bits.specs.Bits.{with_bit, mask_below};
ghost use Rattle.bits.specs.Bounded.{any_below};
ghost use Rattle.pipeline.specs.Steps.{done_by, leads, leads_among, pipeline_in};

use bits::Word;
use history::History;

// The set, with step p where somebody did it.
fn with_step(done: u16, doers: u64, p: usize) -> u16
    ensures { result ≡ cond (not (eqb doers 0)) (with_bit done (p % 16)) done }
{
    if doers != 0 { done.with_bit(p) } else { done }
}

// The set of the steps that some of these persons did on folder o.
pub fn steps_done(h: &History, persons: u64, o: usize) -> u16
    requires { o < 128 }
    ensures { result ≡ mask_below 16 (done_by h.now persons o) }
{
    let mut done: u16 = 0;
    for p in 0..16 {
        done = with_step(
            done,
            history::word_at(h, 2560 + 128 * o + 8 * p) & persons,
            p,
        );
    }
    done
}

// Whether step p, which enables these steps, is done, enables q, and enables no step done.
fn leads_to(enabled: u16, done: u16, p: usize, q: usize) -> bool
    ensures { result ≡ leads enabled done p q }
{
    done.bit(p) & enabled.bit(q) & (enabled & done == 0)
}

// Whether some step leads to q.
fn is_led_to(steps: &[u16; 16], done: u16, q: usize) -> bool
    ensures { result ≡ any_below 16 (leads_among steps.now done q) }
{
    (0..16).any(|p| leads_to(steps[p], done, p, q))
}

// Whether the pipeline permits step q on a folder on which these steps are done.
pub fn permits(steps: &[u16; 16], done: u16, q: usize) -> bool
    ensures { result ≡ pipeline_in steps.now done q }
{
    if q == 0 {
        return done == 0;
    }
    is_led_to(steps, done, q)
}

// The steps that step p leads to: those that it enables, if it is done and enables no step done.
fn led_by(enabled: u16, done: u16, p: usize) -> u16
    ensures { result ≡ mask_below 16 (leads enabled done p) }
{
    if done.bit(p) & (enabled & done == 0) {
        return enabled;
    }
    0
}

// The steps that the pipeline permits on a folder on which these steps are done, one at least: those that a step leads to, which
// "create" is not.
fn led_steps(steps: &[u16; 16], done: u16) -> u64
    requires { 0 < done }
    ensures { result ≡ mask_below 16 (pipeline_in steps.now done) }
{
    let mut next: u16 = 0;
    for p in 0..16 {
        next |= led_by(steps[p], done, p);
    }
    u64::from(next & 65534)
}

// The steps that the pipeline permits on a folder on which these steps are done: where none is, "create" alone, without a look at the
// others.
pub fn next_steps(steps: &[u16; 16], done: u16) -> u64
    ensures { result ≡ mask_below 16 (pipeline_in steps.now done) }
{
    if done == 0 {
        return 1;
    }
    led_steps(steps, done)
}
