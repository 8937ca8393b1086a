// Replays outside cases of reading and writing back: a list of images with the storage that is lent to each, on standard
// input. For each it writes the answer's number, the prototypes or the line, and a digest of every slice with all that
// lies beyond; then, of writing that storage back into a byte less than the image has and into as many, the answer's
// number, the bytes, and a digest of the output with all that lies beyond.
// tools/images/cases.py makes the list, and by tools/oracle what must be written.
//
// A line of the list is one of
//   # words              a case's name, written as it is
//   00003 b00100;        so many times this text is appended to the image; `;` is LF, `!` CR, `%` the byte 0, `~` 255
//   .01211               the image is read; each slice is one cell short (0), as published (1) or one cell longer (2)
#![tactic(auto)]

ghost use Rattle.std.specs.Prelude.{◌<◌, ◌≤◌, length, IfOk};

use image::ReadRefusal;
use std::io;
use writer::WriteRefusal;

// The room for an image: a byte more than may be read, and some.
const ROOM: usize = 65600;

// ---- digests

// One number more, folded into a digest.
fn fold(h: u64, x: u64) -> u64
    requires { (h < 0x1_0000_0000) × (x < 0x1_0000_0000) }
    ensures { result < 0x1_0000_0000 }
{
    (h * 65599 + x) % 0xffff_fffb
}

// A word is folded by its halves.
fn digest_words(s: &[u64]) -> u64 {
    let mut h: u64 = 0;
    let mut i = 0;
    while i < s.len() {
        let x = s[i];
        h = fold(h, x / 0x1_0000_0000);
        h = fold(h, x % 0x1_0000_0000);
        i += 1;
    }
    h
}

fn digest_bytes(s: &[u8]) -> u64 {
    let mut h: u64 = 0;
    let mut i = 0;
    while i < s.len() {
        h = fold(h, s[i] as u64);
        i += 1;
    }
    h
}

// ---- what is written

fn print(rt: &impl Print, x: u64) -> io::Result<()> {
    print!(rt; "{x} ")
}

fn print_answer(rt: &impl Print, r: Result<usize, ReadRefusal>) -> io::Result<()> {
    match r {
        Ok(n) => {
            print(rt, 0)?;
            print(rt, n as u64)
        }
        Err(refusal) => {
            print(rt, refusal.error.number() as u64)?;
            print(rt, refusal.line as u64)
        }
    }
}

fn print_wrote(rt: &impl Print, r: Result<usize, WriteRefusal>) -> io::Result<()> {
    match r {
        Ok(n) => {
            print(rt, 0)?;
            print(rt, n as u64)
        }
        Err(refusal) => {
            print(rt, refusal.number() as u64)?;
            print(rt, 0)
        }
    }
}

// ---- a line of the list

fn said(b: u8) -> u8 {
    match b {
        b';' => 10,
        b'!' => 13,
        b'%' => 0,
        b'~' => 255,
        _ => b,
    }
}

// The n bytes that a line says from its seventh on.
fn put_said(line: &[u8], image: &mut [u8], top: usize, n: usize) {
    let mut i = 0;
    while i < n {
        let b = slices::get(line, 6, i);
        slices::put(image, top, i, said(b));
        i += 1;
    }
}

// ---- a case

// Appends to an image of `top` bytes; its new length. A copy onto its own end repeats.
fn append(line: &[u8], image: &mut [u8], top: usize) -> usize {
    if line.len() < 6 {
        return top;
    }
    let n = line.len() - 6;
    if ROOM < n {
        return top;
    }
    if ROOM < top {
        return top;
    }
    let count = lists::decimal_at(line, 0);
    if count < 1 {
        return top;
    }
    put_said(line, image, top, n);
    slices::copy_within(image, top, top + n, n * (count - 1));
    top + n * count
}

// Reads an image into as much of the storage as a line says.
fn read(
    rt: &impl Print,
    image: &[u8],
    line: &[u8],
    table: &mut [u64],
    code: &mut [u64],
    const_kinds: &mut [u8],
    const_words: &mut [u64],
    texts: &mut [u8],
) -> io::Result<()> {
    let a = lists::lent(line, 1, table.len());
    let b = lists::lent(line, 2, code.len());
    let c = lists::lent(line, 3, const_kinds.len());
    let d = lists::lent(line, 4, const_words.len());
    let e = lists::lent(line, 5, texts.len());
    let r = reader::read(
        image,
        &mut table[..a],
        &mut code[..b],
        &mut const_kinds[..c],
        &mut const_words[..d],
        &mut texts[..e],
    );
    print_answer(rt, r)?;
    print(rt, digest_words(table))?;
    print(rt, digest_words(code))?;
    print(rt, digest_bytes(const_kinds))?;
    print(rt, digest_words(const_words))?;
    print(rt, digest_bytes(texts))
}

// Writes as much of the storage as a line says back into the first n bytes of an output.
fn write(
    rt: &impl Print,
    n: usize,
    line: &[u8],
    table: &[u64],
    code: &[u64],
    const_kinds: &[u8],
    const_words: &[u64],
    texts: &[u8],
    out: &mut [u8],
) -> io::Result<()> {
    let a = lists::lent(line, 1, table.len());
    let b = lists::lent(line, 2, code.len());
    let c = lists::lent(line, 3, const_kinds.len());
    let d = lists::lent(line, 4, const_words.len());
    let e = lists::lent(line, 5, texts.len());
    if out.len() < n {
        return Ok(());
    }
    let r = writer::write(
        &table[..a],
        &code[..b],
        &const_kinds[..c],
        &const_words[..d],
        &texts[..e],
        &mut out[..n],
    );
    print_wrote(rt, r)?;
    print(rt, digest_bytes(out))
}

fn one_less(n: usize) -> usize {
    if n < 1 {
        return 0;
    }
    n - 1
}

// Reads the first n bytes, into slices that are one cell longer than published, and writes them back.
fn run(rt: &impl Print, image: &[u8], n: usize, line: &[u8]) -> io::Result<()> {
    let mut table = [0x5a5a_5a5a_5a5a_5a5au64; 422];
    let mut code = [0x5a5a_5a5a_5a5a_5a5au64; 5042];
    let mut const_kinds = [0x5au8; 8449];
    let mut const_words = [0x5a5a_5a5a_5a5a_5a5au64; 8449];
    let mut texts = [0x5au8; 32769];
    if image.len() < n {
        return Ok(());
    }
    read(
        rt,
        &image[..n],
        line,
        &mut table,
        &mut code,
        &mut const_kinds,
        &mut const_words,
        &mut texts,
    )?;
    let mut out = [0x5au8; 65600];
    let short = one_less(n);
    write(
        rt,
        short,
        line,
        &table,
        &code,
        &const_kinds,
        &const_words,
        &texts,
        &mut out,
    )?;
    write(
        rt,
        n,
        line,
        &table,
        &code,
        &const_kinds,
        &const_words,
        &texts,
        &mut out,
    )?;
    rt.println("")
}

// ---- the list

// One line; how long the image is then.
fn play_line(rt: &impl Print, line: &[u8], image: &mut [u8], top: usize) -> io::Result<usize> {
    let kind = slices::get(line, 0, 0);
    if kind == b'#' {
        rt.write_all(line)?;
        rt.println("")?;
        return Ok(top);
    }
    if kind == b'.' {
        run(rt, image, top, line)?;
        return Ok(0);
    }
    Ok(append(line, image, top))
}

fn play(rt: &impl Print, s: &[u8], image: &mut [u8]) -> io::Result<()> {
    let mut at = 0;
    let mut top = 0;
    while at < s.len() {
        let e = lists::find(s, at, b'\n');
        top = play_line(rt, &s[at..e], image, top)?;
        at = e + 1;
    }
    Ok(())
}

fn main(rt: HostRuntime) -> io::Result<()> {
    let mut list = [0u8; 393216];
    let mut image = [0u8; 65600];
    let n = lists::read_full(&rt, &mut list)?;
    play(&rt, &list[..n], &mut image)
}
