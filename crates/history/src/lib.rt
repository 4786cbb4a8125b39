// A history's bits (document 01, "History"): one bit for each possible request; and 64 of them at once.
#![tactic(auto)]

ghost use Rattle.std.specs.Prelude.{◌≡◌, ◌+◌, ◌≤◌, length};
ghost use Rattle.policy.specs.History.{bit_at, with_bit_at, zeros};
ghost use Rattle.history.specs.Words.{word_at};

use bits::Word;

// The bytes of a history.
pub const BYTES: usize = 18944;

// A history whose length is right.
pub type History = [u8; BYTES];

// Whether the bit of index i is set; past the end none is.
pub fn bit_at(h: &[u8], i: usize) -> bool
    ensures { result ≡ bit_at h.now i }
{
    let at = i >> 3;
    if at >= h.len() {
        return false;
    }
    h[at].bit(i)
}

// The 64 bits that the eight bytes from a place on hold.
pub fn word_at(h: &[u8], at: usize) -> u64
    requires { at + 8 ≤ length h.now }
    ensures { result ≡ word_at h.now at }
{
    u64::from_le_bytes(*h[at..].first_chunk::<8>().unwrap())
}

// Sets the bit of index i; past the end nothing changes.
pub fn set_bit(h: &mut [u8], i: usize)
    ensures { h.new ≡ with_bit_at h.old i }
{
    let at = i >> 3;
    if at >= h.len() {
        return;
    }
    h[at] = h[at].with_bit(i);
}

// Makes a history blank: all zero.
pub fn blank(h: &mut [u8])
    ensures { h.new ≡ zeros (length h.old) }
{
    h.fill(0);
}
