// Little-endian numbers in a slice of bytes, read and written, and the word sum of a file.
// Promises equations with specs/Numbers; proofs/Written says that what is written is read back. Depends on laws.
#![tactic(auto)]

ghost use Rattle.std.specs.Prelude.{◌≡◌, ◌+◌, ◌*◌, ◌<◌, ◌≤◌, length, take, drop};
ghost use Rattle.laws.specs.Lists.{put};
ghost use Rattle.wire.specs.Numbers.{u16_at, u32_at, u64_at, word_sum, le16, le32, seal_of};

// The N bytes at `at`.
pub fn bytes_at<const N: usize>(s: &[u8], at: usize) -> [u8; N]
    requires { at + N ≤ length s.now }
    ensures { result ≡ take N (drop at s.now) }
{
    // cut to N bytes, so that no test is left of whether there are as many
    *s[at..at + N].first_chunk().unwrap()
}

// The 16-bit number at `at`.
pub fn u16_at(s: &[u8], at: usize) -> usize
    requires { at + 1 < length s.now }
    ensures { result ≡ u16_at s.now at }
{
    usize::from(u16::from_le_bytes(bytes_at(s, at)))
}

// The 32-bit number at `at`.
pub fn u32_at(s: &[u8], at: usize) -> u32
    requires { at + 3 < length s.now }
    ensures { result ≡ u32_at s.now at }
{
    u32::from_le_bytes(bytes_at(s, at))
}

// The 64-bit number at `at`.
pub fn u64_at(s: &[u8], at: usize) -> u64
    requires { at + 7 < length s.now }
    ensures { result ≡ u64_at s.now at }
{
    u64::from_le_bytes(bytes_at(s, at))
}

// The sum of the first `words` 32-bit words, which wraps at 2^32.
pub fn word_sum(s: &[u8], words: usize) -> u32
    requires { 4 * words ≤ length s.now }
    ensures { result ≡ word_sum s.now words }
{
    let mut sum: u32 = 0;
    // A `while`: a range can't stand still, and the edit sum_never_ends is of a loop that does.
    let mut i: usize = 0;
    while i < words {
        sum = sum.wrapping_add(u32_at(s, 4 * i));
        i += 1;
    }
    sum
}

// Writes a 16-bit number at `at`.
pub fn put_number(s: &mut [u8], at: usize, n: u16)
    requires { at + 1 < length s.old }
    ensures { s.new ≡ put at (le16 n) s.old }
{
    s[at..at + 2].copy_from_slice(&n.to_le_bytes());
}

// Writes a 32-bit number at `at`.
pub fn put_word(s: &mut [u8], at: usize, n: u32)
    requires { at + 3 < length s.old }
    ensures { s.new ≡ put at (le32 n) s.old }
{
    s[at..at + 4].copy_from_slice(&n.to_le_bytes());
}

// Ends a file of `at` bytes: writes the word sum of its bytes behind them, and the letters behind it.
pub fn seal(s: &mut [u8], at: usize, letters: u32)
    requires { at + 7 < length s.old }
    ensures { s.new ≡ put at (seal_of s.old at letters) s.old }
{
    let sum = word_sum(s, at / 4);
    put_word(s, at, sum);
    put_word(s, at + 4, letters);
}
