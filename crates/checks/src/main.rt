// Replays outside cases of the checker: images, changes of the storage that they are read to, and how much of it is
// lent, on standard input. For each case it writes the answer's number, the prototype and the instruction.
// tools/checks/cases.py makes the list, and by tools/oracle what must be written.
//
// A line of the list is one of
//   # words                     a case's name, written as it is
//   a0.. d1.. b0.. c0.. e0..    a line of the case's image
//   =t00012:00000000000000ff    cell 12 of the table, where the image is read, becomes ff (c code, k kinds, w words, x texts)
//   .01211                      the storage is checked; each slice is one cell short (0), as published (1) or one longer (2)
#![tactic(auto)]

ghost use Rattle.std.specs.Prelude.{◌+◌, ◌≤◌, length, IfOk};

use checker::Refusal;
use std::io;

// ---- what is written

fn print(rt: &impl Print, x: u64) -> io::Result<()> {
    print!(rt; "{x} ")
}

fn print_answer(rt: &impl Print, r: Result<(), Refusal>) -> io::Result<()> {
    match r {
        Ok(()) => {
            print(rt, 0)?;
            print(rt, 0)?;
            print(rt, 0)?;
        }
        Err(refusal) => {
            print(rt, refusal.number as u64)?;
            print(rt, refusal.prototype as u64)?;
            print(rt, refusal.instruction as u64)?;
        }
    }
    rt.println("")
}

// ---- a case

// One changed cell.
fn change(
    line: &[u8],
    table: &mut [u64],
    code: &mut [u64],
    const_kinds: &mut [u8],
    const_words: &mut [u64],
    texts: &mut [u8],
) {
    let at = lists::decimal_at(line, 2);
    let v = lists::number_at(line, 8, 16);
    let b = (v % 256) as u8;
    match slices::get(line, 0, 1) {
        b't' => slices::put(table, 0, at, v),
        b'c' => slices::put(code, 0, at, v),
        b'k' => slices::put(const_kinds, 0, at, b),
        b'w' => slices::put(const_words, 0, at, v),
        _ => slices::put(texts, 0, at, b),
    }
}

// The changes, a line each.
fn change_all(
    s: &[u8],
    table: &mut [u64],
    code: &mut [u64],
    const_kinds: &mut [u8],
    const_words: &mut [u64],
    texts: &mut [u8],
) {
    let mut at = 0;
    while at < s.len() {
        let e = lists::find(s, at, b'\n');
        change(&s[at..e], table, code, const_kinds, const_words, texts);
        at = e + 1;
    }
}

// Checks as much of the storage as a line says.
fn check(
    rt: &impl Print,
    line: &[u8],
    table: &[u64],
    code: &[u64],
    const_kinds: &[u8],
    const_words: &[u64],
    texts: &[u8],
) -> io::Result<()> {
    let a = lists::lent(line, 1, table.len());
    let b = lists::lent(line, 2, code.len());
    let c = lists::lent(line, 3, const_kinds.len());
    let d = lists::lent(line, 4, const_words.len());
    let e = lists::lent(line, 5, texts.len());
    let r = checker::check(
        &table[..a],
        &code[..b],
        &const_kinds[..c],
        &const_words[..d],
        &texts[..e],
    );
    print_answer(rt, r)
}

// A case: the lines of its image and of its changes, read into slices that are one cell longer than published.
fn run(rt: &impl Print, s: &[u8], line: &[u8]) -> io::Result<()> {
    let mut table = [0u64; storage::TABLE + 1];
    let mut code = [0u64; storage::CODE + 1];
    let mut const_kinds = [0u8; storage::CONSTANTS + 1];
    let mut const_words = [0u64; storage::CONSTANTS + 1];
    let mut texts = [0u8; storage::TEXTS + 1];
    let n = lists::find(s, 0, b'=');
    let r = reader::read(
        &s[..n],
        &mut table,
        &mut code,
        &mut const_kinds,
        &mut const_words,
        &mut texts,
    );
    if r.is_err() {
        return rt.println("not read");
    }
    change_all(
        &s[n..],
        &mut table,
        &mut code,
        &mut const_kinds,
        &mut const_words,
        &mut texts,
    );
    check(rt, line, &table, &code, &const_kinds, &const_words, &texts)
}

// ---- the list

fn echo(rt: &impl Print, line: &[u8]) -> io::Result<()> {
    rt.write_all(line)?;
    rt.println("")
}

// The line from `at` to e of a case that begins at `start`; where the case begins that the next line belongs to.
fn play_line(rt: &impl Print, s: &[u8], start: usize, at: usize, e: usize) -> io::Result<usize>
    requires { (start ≤ at) × (at ≤ e) × (e ≤ length s.now) }
    ensures { IfOk result (λ next. next ≤ e + 1) }
{
    let kind = slices::get(s, at, 0);
    if kind == b'#' {
        echo(rt, &s[at..e])?;
        return Ok(e + 1);
    }
    if kind == b'.' {
        run(rt, &s[start..at], &s[at..e])?;
        return Ok(e + 1);
    }
    Ok(start)
}

fn play(rt: &impl Print, s: &[u8]) -> io::Result<()> {
    let mut at = 0;
    let mut start = 0;
    while at < s.len() {
        let e = lists::find(s, at, b'\n');
        start = play_line(rt, s, start, at, e)?;
        at = e + 1;
    }
    Ok(())
}

fn main(rt: HostRuntime) -> io::Result<()> {
    let mut list = [0u8; 393216];
    let n = lists::read_full(&rt, &mut list)?;
    play(&rt, &list[..n])
}
