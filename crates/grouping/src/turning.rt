// Turning 64 rows of 64 bits round: bit j of row i becomes bit i of row j. What is known for each person then is known for each folder,
// firm or right, and the other way round. Six stages of the same shape do it, each on the rows that the one before gave.
ghost use Rattle.std.specs.Prelude.{◌≡◌, ◌≤◌, length};
ghost use Rattle.recorded.specs.Gathering.{FirstAre};
ghost use Rattle.grouping.specs.Turning.{IsStage, merged, stage_row, turned_row};

// The bits of x at the columns whose digit of the width is 0, and those of y at these columns, shifted up by the width. `low` is the mask
// of these columns: as many ones as the width says, as many zeros, and so on.
fn merge<const WIDTH: usize>(x: u64, y: u64) -> u64
    requires { IsStage WIDTH }
    ensures { result ≡ merged WIDTH x y }
{
    let low = u64::MAX / ((1 << WIDTH) + 1);
    (x & low) | ((y & low) << WIDTH)
}

// One stage: row i and row 32 + i give the rows 2 * i and 2 * i + 1.
fn stage<const WIDTH: usize>(rows: &[u64]) -> [u64; 64]
    requires { (64 ≤ length rows.now) × IsStage WIDTH }
    ensures { FirstAre 64 64 (stage_row WIDTH rows.now) result }
{
    let mut out: [u64; 64] = [0; 64];
    for i in 0..32 {
        let a = rows[i];
        let b = rows[32 + i];
        out[2 * i] = merge::<WIDTH>(a, b);
        out[2 * i + 1] = merge::<WIDTH>(a >> WIDTH, b >> WIDTH);
    }
    out
}

// The first 64 rows, turned round.
pub fn turn(rows: &[u64]) -> [u64; 64]
    requires { 64 ≤ length rows.now }
    ensures { FirstAre 64 64 (turned_row rows.now) result }
{
    let a = stage::<32>(rows);
    let b = stage::<16>(&a);
    let c = stage::<8>(&b);
    let d = stage::<4>(&c);
    let e = stage::<2>(&d);
    stage::<1>(&e)
}
