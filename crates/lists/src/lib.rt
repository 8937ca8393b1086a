// Reading the lists of cases that the test programs play: where a line ends, the digits and numbers in it, and how much
// of a slice a case lends. Every function takes any bytes and any place, so no caller owes a proof that a list is well
// made: a byte past the end is 0.
#![tactic(auto)]

ghost use Rattle.std.specs.Prelude.{◌≡◌, ◌+◌, ◌-◌, ◌%◌, ◌≤◌, length, get_or, drop, IfOk};
ghost use Rattle.lists.specs.Lines.{before, digit_value, number_at, decimal_at};

use std::io;
use std::io::Read;

// How many bytes stand before the first b; all of them where there is none.
fn count_before(s: &[u8], b: u8) -> usize
    ensures is { result ≡ before b s.now }
    ensures within { result ≤ length s.now }
{
    s.iter().take_while(|x| **x != b).count()
}

// Where the first byte b at or after `at` stands; the end where there is none, and `at` itself where that is past the
// end. The bounds follow from it: they are what a caller needs to cut a line out.
pub fn find(s: &[u8], at: usize, b: u8) -> usize
    ensures { (result ≡ at + before b (drop at s.now)) × (at ≤ result) × (result ≤ at + (length s.now - at)) }
{
    if s.len() <= at {
        return at;
    }
    at + count_before(&s[at..], b)
}

// Digit i of those from `at` on.
pub fn digit_at(line: &[u8], at: usize, i: usize) -> usize
    ensures { result ≡ digit_value (get_or line.now (at + i) 0) }
{
    let b = slices::get(line, at, i);
    ((b % 16 + b / 64 * 9) % 16) as usize
}

// The number that the n hexadecimal digits from `at` on say. Past the end every digit is 0: once the number is, it stays.
#[tactic(auto, using(crate::proofs::Digits::over), unfolding(crate::specs::Lines::number_at))]
pub fn number_at(line: &[u8], at: usize, n: usize) -> u64
    ensures { result ≡ number_at n line.now at }
{
    let mut v: u64 = 0;
    for i in 0..n {
        if (line.len() <= i) & (v == 0) {
            return 0;
        }
        let d = digit_at(line, at, i) as u64;
        v = (v % 0x1000_0000_0000_0000) * 16 + d;
    }
    v
}

// The number that the five decimal digits from `at` on say.
pub fn decimal_at(line: &[u8], at: usize) -> usize
    ensures { (result ≡ decimal_at line.now at) × (result ≤ 166665) }
{
    let thousands = digit_at(line, at, 0) * 10 + digit_at(line, at, 1);
    let tens = digit_at(line, at, 2) * 10 + digit_at(line, at, 3);
    thousands * 1000 + tens * 10 + digit_at(line, at, 4)
}

// How many of the n cells of a slice are lent: two fewer (0), one fewer (1) or all of them (2), as byte i of a line has it.
pub fn lent(line: &[u8], i: usize, n: usize) -> usize
    ensures { (result ≡ n - (2 - digit_value (get_or line.now i 0) % 3)) × (result ≤ n) }
{
    n.saturating_sub(2 - digit_at(line, 0, i) % 3)
}

// Fills a buffer from the input, or as much of it as the input has. Answers how many bytes that is.
pub fn read_full(rt: &impl Input, buffer: &mut [u8]) -> io::Result<usize>
    ensures { IfOk result (λ n. n ≤ length buffer.new) }
{
    let room = buffer.len();
    let mut rest = &mut buffer[..];
    io::copy(&mut rt.reader().take(room as u64), &mut rest)?;
    let left = rest.len();
    Ok(room.saturating_sub(left))
}
