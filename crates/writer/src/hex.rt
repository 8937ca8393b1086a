// Hexadecimal text, "lowercase digits in pairs", put into the output from a place on; each answers the place after it.
ghost use Rattle.std.specs.Prelude.{◌≡◌, [], ◌∷◌, ◌<◌};
ghost use Rattle.image.specs.Write.{hex_digit, hex_of, word_bytes};
ghost use Rattle.writer.specs.Putting.{Room, Put};

fn digit_of(n: u8) -> u8
    requires { n < 16 }
    ensures { result ≡ hex_digit n }
{
    if n < 10 {
        return 48 + n;
    }
    87 + n
}

// A byte.
pub(crate) fn put_hex(out: &mut [u8], at: usize, b: u8) -> usize
    requires { Room out.old at (hex_of (b ∷ [])) }
    ensures { Put out.old at (hex_of (b ∷ [])) result out.new }
{
    let high = digit_of(b / 16);
    let low = digit_of(b % 16);
    slices::put(out, at, 0, high);
    slices::put(out, at, 1, low);
    at + 2
}

// The n low bytes of a number, "high byte first". The last one goes first, so that each is the number's lowest.
pub(crate) fn put_number(out: &mut [u8], at: usize, n: usize, w: u64) -> usize
    requires { Room out.old at (hex_of (word_bytes n w [])) }
    ensures { Put out.old at (hex_of (word_bytes n w [])) result out.new }
{
    let mut k = n;
    let mut x = w;
    while 0 < k {
        k -= 1;
        put_hex(out, at + 2 * k, (x % 256) as u8);
        x = x / 256;
    }
    at + 2 * n
}

// The bytes of a text.
pub(crate) fn put_text(out: &mut [u8], at: usize, s: &[u8]) -> usize
    requires { Room out.old at (hex_of s.now) }
    ensures { Put out.old at (hex_of s.now) result out.new }
{
    let mut to = at;
    let mut i = 0;
    while i < s.len() {
        to = put_hex(out, to, s[i]);
        i += 1;
    }
    to
}
