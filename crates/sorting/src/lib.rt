// Sorting by pairs (a topological sort): for each place below a bound the set is given of the places that it may not come before, and an
// order of all of them is looked for in which each may come before each later one. Again and again the first pending place is taken that
// may come before every pending one; where none may, there is no such order.
#![tactic(auto)]

ghost use Rattle.std.specs.Prelude.{◌≡◌, true, ◌≤◌};
ghost use Rattle.bits.specs.Bits.{mask_below};
ghost use Rattle.sorting.specs.Sorting.{FirstFree, Sorts};

use bits::Word;

// The set of the places below n.
fn all_below(n: usize) -> u64
    requires { n ≤ 64 }
    ensures { result ≡ mask_below n (λ i. true) }
{
    let mut all: u64 = 0;
    for i in 0..n {
        all = all.with_bit(i);
    }
    all
}

// The first pending place that may come before every pending one.
fn first_free(rows: &[u64; 64], pending: u64) -> Option<usize>
    ensures { FirstFree rows.now pending result }
{
    for i in bits::members(pending) {
        if rows[i] & pending == 0 {
            return Some(i);
        }
    }
    None
}

// The places below n in an order by these rows, then zeros.
pub fn sort(rows: &[u64; 64], n: usize) -> Option<[u8; 64]>
    requires { n ≤ 64 }
    ensures { Sorts rows.now n result }
{
    let mut positions = [0; 64];
    let mut pending = all_below(n);
    for k in 0..n {
        let i = first_free(rows, pending)?;
        positions[k] = i as u8;
        pending = bits::without_bit64(pending, i);
    }
    Some(positions)
}
