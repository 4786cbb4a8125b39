// The checks of the end record, on the 16 sets of the steps that each step enables.
ghost use Rattle.std.specs.Prelude.{◌≡◌, ◌<◌, ◌%◌, not, [], ◌∷◌};
ghost use Rattle.std.specs.List.{list_any, enumerate_from};
ghost use Rattle.bits.specs.Bits.{bit};
ghost use Rattle.policy.specs.Checks.{◌else◌, ladder};
ghost use Rattle.policy.specs.Refusals.{number_of};
ghost use Rattle.rulebook.specs.Steps.{joined, through, closed, circle_in, enabled_below, loose_among, loose_in};

use bits::Word;
use policy::{Answer, Refusal};

// A set of steps, with the members of row, the set of step k, where k is in it.
#[tactic(auto, unfolding(crate::specs::Steps::joined))]
fn join(k: usize, row: u16, set: u16) -> u16
    ensures { result ≡ joined (k % 16) row set }
{
    if set.bit(k) { set | row } else { set }
}

// Adds the ways through step k to the sets.
fn join_through(k: usize, sets: &mut [u16; 16])
    requires { k < 16 }
    ensures { sets.new ≡ through k sets.old }
{
    let row = sets[k];
    for set in sets.iter_mut() {
        *set = join(k, row, *set);
    }
}

// The sets with every way: in the end the set of a step holds each step that it leads to.
fn close(sets: &[u16; 16]) -> [u16; 16]
    ensures { result ≡ closed 16 sets.now }
{
    let mut all = *sets;
    for k in 0..16 {
        join_through(k, &mut all);
    }
    all
}

// Whether some step leads to itself.
pub fn has_circle(sets: &[u16; 16]) -> bool
    ensures { result ≡ list_any (λ x. bit x.1 (x.0 % 16)) (enumerate_from 0 (closed 16 sets.now)) }
{
    let all = close(sets);
    all.iter().enumerate().any(|(p, set)| set.bit(p))
}

// The set of the steps that some step enables.
fn enabled(sets: &[u16; 16]) -> u16
    ensures { result ≡ enabled_below 16 sets.now }
{
    sets.iter().fold(0, |union, set| union | *set)
}

// Whether some step enables step 0.
pub fn enters_create(sets: &[u16; 16]) -> bool
    ensures { result ≡ bit (enabled_below 16 sets.now) 0 }
{
    enabled(sets).bit(0)
}

// Whether a step with the given set, other than 0, enables something and is not enabled.
#[tactic(auto, unfolding(crate::specs::Steps::loose_among))]
fn is_loose(enabled: u16, set: u16, p: usize) -> bool
    ensures { result ≡ loose_among enabled set (p % 16) }
{
    (p % 16 != 0) & (set != 0) & !enabled.bit(p)
}

// Whether some step, other than 0, enables something and is not enabled.
pub fn has_loose(sets: &[u16; 16]) -> bool
    ensures { result ≡ list_any (λ x. loose_among (enabled_below 16 sets.now) x.1 (x.0 % 16)) (enumerate_from 0 sets.now) }
{
    let union = enabled(sets);
    sets.iter()
        .enumerate()
        .any(|(p, set)| is_loose(union, *set, p))
}

// The answer to a book that ends with these sets: a circle refuses it, and else a step that enables something and is not enabled.
pub fn end_answer(sets: &[u16; 16]) -> Answer
    ensures { number_of result ≡ ladder ((not (circle_in sets.now) else 8) ∷ (not (loose_in sets.now) else 9) ∷ []) }
{
    if has_circle(sets) {
        return Err(Refusal::Circle);
    }
    if has_loose(sets) {
        return Err(Refusal::LooseStep);
    }
    Ok(())
}
