// The program: reads an image from standard input and writes what `output` makes of it, which is proved for any image.
// With words on its command line, a budget and then the rule's arguments, it writes what `output_given` makes of it; what a
// word stands for is proved too (`words`). No contract can say what a program reads or writes; so this is all that it does
// besides. It ends with status 0, or with 1 where its input can't be read or its output not written: ./deletion, at the top,
// has statuses of its own.
#![tactic(auto)]

mod lines;
mod output;
mod words;

ghost use Rattle.std.specs.Prelude.{◌≤◌, length, IfOk};

use std::env::FillError;
use std::io;
use std::io::Read;
use std::rt::Env;

// One more than a start takes, so that more are seen to be.
const MOST: usize = 9;

// Whether the command line has a word i.
fn is_given(env: &impl Env, i: usize) -> bool {
    let mut text = [0u8; 0];
    !matches!(env.arg(i, &mut text), Err(FillError::NotPresent))
}

// Puts what word i stands for at n. One that is longer than `text` is taken for an empty one, which stands for nothing.
fn put_argument(env: &impl Env, i: usize, n: usize, kinds: &mut [u8], words: &mut [u64]) {
    let mut text = [0u8; 4096];
    let got = env.arg(i, &mut text).unwrap_or(0);
    let v = words::argument_of(&text[..got]);
    slices::put(kinds, n, 0, constant::kind_of(v));
    slices::put(words, n, 0, constant::word_of(v));
}

// The arguments: what the words behind the budget stand for. How many they are is answered.
fn arguments(env: &impl Env, kinds: &mut [u8], words: &mut [u64]) -> usize
    ensures { result ≤ 9 }
{
    for n in 0..MOST {
        if !is_given(env, n + 2) {
            return n;
        }
        put_argument(env, n + 2, n, kinds, words);
    }
    MOST
}

// What the first word stands for as a budget.
fn budget_given(env: &impl Env) -> Option<u32> {
    let mut text = [0u8; 4096];
    let got = env.arg(1, &mut text).unwrap_or(0);
    words::budget_of(&text[..got])
}

// Puts what is written for an image into the output and answers how much it is: by the words, where there are any. Where the
// first of them is no budget, nothing is.
fn answer(env: &impl Env, image: &[u8], out: &mut [u8; output::OUTPUT]) -> usize
    ensures { result ≤ length out.new }
{
    if !is_given(env, 1) {
        return output::output(image, out);
    }
    match budget_given(env) {
        Some(most) => {
            let mut kinds = [0u8; MOST];
            let mut words = [0u64; MOST];
            let n = arguments(env, &mut kinds, &mut words);
            output::output_given(image, most, &kinds[..n], &words[..n], out)
        }
        None => 0,
    }
}

// Fills a buffer from the input, or as much of it as the input has. Answers how many bytes that is.
fn read_full(rt: &impl Input, buffer: &mut [u8]) -> io::Result<usize>
    ensures { IfOk result (λ n. n ≤ length buffer.new) }
{
    let room = buffer.len();
    let mut rest = &mut buffer[..];
    io::copy(&mut rt.reader().take(room as u64), &mut rest)?;
    let left = rest.len();
    Ok(room.saturating_sub(left))
}

fn main(rt: HostRuntime) -> io::Result<()> {
    // A byte more than an image may have, so that a longer one is seen to be.
    let mut image = [0u8; 65537];
    let mut out = [0u8; output::OUTPUT];
    let got = read_full(&rt, &mut image)?;
    let n = answer(&rt, &image[..got], &mut out);
    rt.write_all(&out[..n])
}
