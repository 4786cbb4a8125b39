// Reading the fields of commands. Every reader is total: past the end of the bytes it reads 0.
ghost use Rattle.std.specs.Prelude.{◌<◌};
ghost use Rattle.std.specs.Counts.{IsPrefixLen};

// The byte at a place.
pub fn byte(s: &[u8], at: usize) -> u8 {
    s.get(at).copied().unwrap_or(0)
}

// How many bytes a named number takes of a slice: all where it is longer.
pub fn front(named: usize, s: &[u8]) -> usize
    ensures { IsPrefixLen result s.now }
{
    named.min(s.len())
}

// The bytes from a place on.
pub fn after(s: &[u8], at: usize) -> &[u8] {
    &s[at.min(s.len())..]
}

// The number of two bytes at a place, the lowest first.
pub fn pair(s: &[u8], at: usize) -> usize
    ensures { result < 65536 }
{
    let t = after(s, at);
    usize::from(u16::from_le_bytes([byte(t, 0), byte(t, 1)]))
}

// The number of eight bytes at a place, the lowest first.
pub fn number(s: &[u8], at: usize) -> u64 {
    let t = after(s, at);
    let mut sum: u64 = 0;
    for i in (0..8).rev() {
        sum = (sum << 8) | u64::from(byte(t, i));
    }
    sum
}
