// Replays the outside vectors on standard input through the crates `constant` and `comparison`: what Lua 5.3, Lua 5.4
// and the Rust original answer, operator by operator. tools/vectors/README.md has the format. A line is written for each
// operator.
//
// The values of a list lie in two slices: in `bytes` a kind for each of 256 values, then the strings' bytes; in `words`
// a word for each of them, then for each string where its bytes lie. So the number of a string's constant is 256 more
// than the value's own, and the two slices serve as `texts` and `const_words` too.
#![tactic(auto)]

ghost use Rattle.std.specs.Prelude.{◌≤◌, length, IfOk};

use constant::{OperatorError, Value};
use std::io;

// ---- the input

// The next byte, 0 where the input ends.
fn next(rt: &impl Input, input: &mut [u8], at: &mut usize, end: &mut usize) -> io::Result<u8> {
    let i = *at;
    if i < *end {
        *at = i + 1;
        return Ok(slices::get(input, 0, i));
    }
    let n = lists::read_full(rt, input)?;
    *end = n;
    *at = 1;
    if n == 0 {
        return Ok(0);
    }
    Ok(slices::get(input, 0, 0))
}

fn wide(b: u8) -> u64 {
    b as u64
}

fn digit(b: u8) -> u64 {
    if b < b'a' {
        return wide(b) % 16;
    }
    wide(b) % 16 + 9
}

// A number of so many hexadecimal digits.
fn hex(
    rt: &impl Input,
    input: &mut [u8],
    at: &mut usize,
    end: &mut usize,
    digits: u64,
) -> io::Result<u64> {
    let mut value: u64 = 0;
    let mut left = digits;
    while left > 0 {
        value = (value << 4) | digit(next(rt, input, at, end)?);
        left -= 1;
    }
    Ok(value)
}

// The same with the blank or line end after it.
fn field(
    rt: &impl Input,
    input: &mut [u8],
    at: &mut usize,
    end: &mut usize,
    digits: u64,
) -> io::Result<u64> {
    let value = hex(rt, input, at, end, digits)?;
    next(rt, input, at, end)?;
    Ok(value)
}

// Writes the rest of the line.
fn echo_line(
    rt: &(impl Input + Print),
    input: &mut [u8],
    at: &mut usize,
    end: &mut usize,
) -> io::Result<()> {
    let mut left: u64 = 80;
    while left > 0 {
        let b = next(rt, input, at, end)?;
        if b == b'\n' {
            return Ok(());
        }
        rt.write_all(&[b])?;
        left -= 1;
    }
    Ok(())
}

// ---- the values

// A string's bytes, from `start` on. Answers how many.
fn read_text(
    rt: &impl Input,
    input: &mut [u8],
    at: &mut usize,
    end: &mut usize,
    bytes: &mut [u8],
    start: usize,
) -> io::Result<usize> {
    let count = field(rt, input, at, end, 2)? as usize;
    let mut i = 0;
    while i < count {
        let byte = hex(rt, input, at, end, 2)? % 256;
        slices::put(bytes, start, i, byte as u8);
        i += 1;
    }
    next(rt, input, at, end)?;
    Ok(count)
}

// The value with number i, below 256. Answers where the next string's bytes go.
fn read_value(
    rt: &impl Input,
    input: &mut [u8],
    at: &mut usize,
    end: &mut usize,
    bytes: &mut [u8],
    words: &mut [u64],
    i: usize,
    start: usize,
) -> io::Result<usize> {
    if next(rt, input, at, end)? == b's' {
        let count = read_text(rt, input, at, end, bytes, start)?;
        slices::put(bytes, 0, i, 4);
        slices::put(words, 0, i, (256 | i) as u64);
        slices::put(words, 256, i, ((start << 16) | count) as u64);
        return Ok(std::num::wrapping_add_usize(start, count));
    }
    slices::put(bytes, 0, i, next(rt, input, at, end)? % 16);
    next(rt, input, at, end)?;
    slices::put(words, 0, i, field(rt, input, at, end, 16)?);
    Ok(start)
}

// A list of values, in place of the one before. Answers how many.
fn read_values(
    rt: &impl Input,
    input: &mut [u8],
    at: &mut usize,
    end: &mut usize,
    bytes: &mut [u8],
    words: &mut [u64],
) -> io::Result<usize> {
    let count = field(rt, input, at, end, 2)? as usize;
    let mut start: usize = 256;
    let mut i = 0;
    while i < count {
        start = read_value(rt, input, at, end, bytes, words, i, start)?;
        i += 1;
    }
    Ok(count)
}

// ---- results

// A result: `i` or `n` and the word; `t`; `f`; `e`, the error's number and the operand that it names. No list has the
// tag 0.
#[derive(Clone, Copy)]
struct Outcome {
    tag: u8,
    word: u64,
    operand: u8,
}

fn unnamed(tag: u8, word: u64) -> Outcome {
    Outcome {
        tag,
        word,
        operand: 0,
    }
}

fn failed(number: u64, operand: u8) -> Outcome {
    Outcome {
        tag: b'e',
        word: number,
        operand,
    }
}

fn of_value(v: Value) -> Outcome {
    let kind = constant::kind_of(v);
    let word = constant::word_of(v);
    if kind == 2 {
        return unnamed(b'i', word);
    }
    if kind == 3 {
        return unnamed(b'n', word);
    }
    unnamed(0, word)
}

fn of_bool(b: bool) -> Outcome {
    if b {
        return unnamed(b't', 0);
    }
    unnamed(b'f', 0)
}

fn of_error(e: OperatorError) -> Outcome {
    failed(wide(constant::error_number(e.error)), e.operand)
}

fn of_answer(a: Result<Value, OperatorError>) -> Outcome {
    match a {
        Ok(v) => of_value(v),
        Err(e) => of_error(e),
    }
}

fn of_compared(c: Result<bool, OperatorError>) -> Outcome {
    match c {
        Ok(b) => of_bool(b),
        Err(e) => of_error(e),
    }
}

// By the number of the operation, as in an image. The last operand is c; an operator of one or two leaves out those
// before it.
fn evaluate(operation: u64, a: Value, b: Value, c: Value, bytes: &[u8], words: &[u64]) -> Outcome {
    match operation {
        0x13 => of_bool(comparison::past_end(a, b, c)),
        0x1b => of_bool(comparison::is_equal(b, c, words, bytes)),
        0x1c => of_compared(comparison::less_than(b, c, words, bytes)),
        0x1d => of_compared(comparison::less_equal(b, c, words, bytes)),
        0x1f => of_answer(constant::negate(c)),
        0x20 => of_answer(constant::bitwise_not(c)),
        0x21 => of_answer(constant::add(b, c)),
        0x22 => of_answer(constant::subtract(b, c)),
        0x23 => of_answer(constant::multiply(b, c)),
        0x24 => of_answer(constant::float_divide(b, c)),
        0x25 => of_answer(constant::floor_divide(b, c)),
        0x26 => of_answer(constant::modulo(b, c)),
        0x28 => of_answer(constant::bitwise_and(b, c)),
        0x29 => of_answer(constant::bitwise_or(b, c)),
        0x2a => of_answer(constant::bitwise_xor(b, c)),
        0x2b => of_answer(constant::shift_left(b, c)),
        0x2c => of_answer(constant::shift_right(b, c)),
        _ => unnamed(0, 0),
    }
}

fn value_at(bytes: &[u8], words: &[u64], i: usize) -> Value {
    constant::value_of(slices::get(bytes, 0, i), slices::get(words, 0, i))
}

// What the machine answers at a place of an operator's results: every choice of operands, the last one changing first.
fn answer_at(operation: u64, place: usize, n: usize, bytes: &[u8], words: &[u64]) -> Outcome {
    if n == 0 {
        return unnamed(0, 0);
    }
    let a = value_at(bytes, words, place / n / n % n);
    let b = value_at(bytes, words, place / n % n);
    let c = value_at(bytes, words, place % n);
    evaluate(operation, a, b, c, bytes, words)
}

// The next byte that ends no row.
fn next_tag(rt: &impl Input, input: &mut [u8], at: &mut usize, end: &mut usize) -> io::Result<u8> {
    let b = next(rt, input, at, end)?;
    if b == b'\n' {
        return next(rt, input, at, end);
    }
    Ok(b)
}

// The number of a zero divisor's error, by that of its operator's own.
fn by_zero(error: u64) -> u64 {
    match error {
        34 => 45,
        35 => 46,
        _ => 0,
    }
}

// The next result of a list, of an operator whose own error has this number: `1` and `2` are that error by the operand
// that it names, `z` is a zero divisor's.
fn expected(
    rt: &impl Input,
    input: &mut [u8],
    at: &mut usize,
    end: &mut usize,
    error: u64,
) -> io::Result<Outcome> {
    let tag = next_tag(rt, input, at, end)?;
    if (tag == b'i') | (tag == b'n') {
        return Ok(unnamed(tag, hex(rt, input, at, end, 16)?));
    }
    match tag {
        b'1' => Ok(failed(error, 1)),
        b'2' => Ok(failed(error, 2)),
        b'z' => Ok(failed(by_zero(error), 2)),
        _ => Ok(unnamed(tag, 0)),
    }
}

// ---- the replay

#[derive(Clone, Copy)]
struct Tally {
    compared: u64,
    different: u64,
}

// A result `-` is left out.
fn counted(t: Tally, want: Outcome, got: Outcome) -> Tally {
    if want.tag == b'-' {
        return t;
    }
    let compared = std::num::wrapping_add_u64(t.compared, 1);
    let different = t.different;
    if (want.tag == got.tag) & (want.word == got.word) & (want.operand == got.operand) {
        return Tally {
            compared,
            different,
        };
    }
    Tally {
        compared,
        different: std::num::wrapping_add_u64(different, 1),
    }
}

fn report(rt: &impl Print, t: Tally) -> io::Result<()> {
    println!(rt; ": compared {}, different {}", t.compared, t.different)
}

// One operator: its number, its error's number, how many results, its name, the results.
fn operator(
    rt: &(impl Input + Print),
    input: &mut [u8],
    at: &mut usize,
    end: &mut usize,
    n: usize,
    bytes: &[u8],
    words: &[u64],
) -> io::Result<Tally> {
    let operation = field(rt, input, at, end, 2)?;
    let error = field(rt, input, at, end, 2)?;
    let count = field(rt, input, at, end, 6)? as usize;
    echo_line(rt, input, at, end)?;
    let mut tally = Tally {
        compared: 0,
        different: 0,
    };
    let mut place = 0;
    while place < count {
        let want = expected(rt, input, at, end, error)?;
        let got = answer_at(operation, place, n, bytes, words);
        tally = counted(tally, want, got);
        place += 1;
    }
    report(rt, tally)?;
    Ok(tally)
}

fn finish(rt: &impl Print, t: Tally) -> io::Result<()> {
    if t.different == 0 {
        return println!(rt; "all {} agree", t.compared);
    }
    println!(rt; "{} of {} differ", t.different, t.compared)
}

// How many values the list has, and what all operators so far came to.
#[derive(Clone, Copy)]
struct Run {
    values: usize,
    total: Tally,
}

fn sum(s: Tally, t: Tally) -> Tally {
    Tally {
        compared: std::num::wrapping_add_u64(s.compared, t.compared),
        different: std::num::wrapping_add_u64(s.different, t.different),
    }
}

// A list of values or an operator; a line's end is passed over.
fn carry_out(
    rt: &(impl Input + Print),
    command: u8,
    run: Run,
    input: &mut [u8],
    at: &mut usize,
    end: &mut usize,
    bytes: &mut [u8],
    words: &mut [u64],
) -> io::Result<Run> {
    let total = run.total;
    let values = run.values;
    if command == b'w' {
        let values = read_values(rt, input, at, end, bytes, words)?;
        return Ok(Run { values, total });
    }
    if command == b'o' {
        let t = operator(rt, input, at, end, values, bytes, words)?;
        let total = sum(total, t);
        return Ok(Run { values, total });
    }
    Ok(run)
}

// The lists, one after the other. The turns fall because a proved loop has to end; no input needs them all.
fn replay(
    rt: &(impl Input + Print),
    input: &mut [u8],
    bytes: &mut [u8],
    words: &mut [u64],
) -> io::Result<()> {
    let mut at = 0;
    let mut end = 0;
    let mut run = Run {
        values: 0,
        total: Tally {
            compared: 0,
            different: 0,
        },
    };
    let mut turns = u64::MAX;
    while turns > 0 {
        let command = next(rt, input, &mut at, &mut end)?;
        if command == 0 {
            return finish(rt, run.total);
        }
        run = carry_out(rt, command, run, input, &mut at, &mut end, bytes, words)?;
        turns -= 1;
    }
    Ok(())
}

fn main(rt: HostRuntime) -> io::Result<()> {
    let mut input = [0u8; 65536];
    let mut bytes = [0u8; 4096];
    let mut words = [0u64; 512];
    replay(&rt, &mut input, &mut bytes, &mut words)
}
