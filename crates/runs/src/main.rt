// Replays programs of real Lua: compiled by luac5.3, translated to images, and held against what lua5.3 returned or raised;
// and random images, held against what the Rust returned or raised.
// Each image on standard input is read, started without arguments and run on a budget of 1,000,000. For each it writes
// the answer's number, then after 0 every returned value as in document 01's b0 lines, after an error its prototype and
// instruction; at the end the totals. tools/luac/generate.py makes the list and what must be written.
//
// A line of the list is one of
//   # words                     a program's name, written as it is
//   a0.. d1.. b0.. c0.. e0..    a line of its image, e0 the last
#![tactic(auto)]

ghost use Rattle.std.specs.Prelude.{◌+◌, ◌≤◌, length, IfOk};

use std::io;
use step::Outcome;

const BUDGET: u32 = 1000000;

// ---- a value as text: a blank, `b0`, the tag and the payload

// A hexadecimal digit.
fn digit(n: u8) -> u8
    requires { n ≤ 15 }
{
    if n < 10 {
        return b'0' + n;
    }
    b'a' - 10 + n
}

// Byte i of a text of hexadecimal digits.
fn put_hex(out: &mut [u8], i: usize, b: u8)
    requires { i ≤ 1000 }
{
    let high = digit(b / 16);
    let low = digit(b % 16);
    slices::put(out, 1, 2 * i, high);
    slices::put(out, 1, 2 * i + 1, low);
}

// A word, its high byte first.
fn put_payload(out: &mut [u8], w: u64) {
    let mut left = w;
    let mut i: usize = 8;
    while 0 < i {
        let b = (left % 256) as u8;
        put_hex(out, i + 1, b);
        left = left / 256;
        i -= 1;
    }
}

// At most 64 bytes of a string.
fn fewer(n: usize) -> usize
    ensures { (result ≤ 64) × (result ≤ n) }
{
    if n < 64 {
        return n;
    }
    64
}

// A string's bytes. Answers how many.
fn put_text(out: &mut [u8], text: &[u8]) -> usize
    ensures { result ≤ 64 }
{
    let n = fewer(text.len());
    let mut i: usize = 0;
    while i < n {
        let b = text[i];
        put_hex(out, i + 2, b);
        i += 1;
    }
    n
}

// NaNs are one.
fn one_nan(w: u64) -> u64 {
    if 0x7ff0_0000_0000_0000 < w % 0x8000_0000_0000_0000 {
        return 0x7ff8_0000_0000_0000;
    }
    w
}

// The prototype of a function, which is a closure entry.
fn prototype(frames: &[u64], word: u64) -> u8 {
    let entry = cells::entry(frames, word as usize) as usize;
    (state::previous(entry) % 256) as u8
}

// A value's payload. Answers its bytes.
fn put_value(
    out: &mut [u8],
    kind: u8,
    word: u64,
    const_words: &[u64],
    texts: &[u8],
    frames: &[u64],
) -> usize
    ensures { result ≤ 64 }
{
    if kind == 0 {
        return 0;
    }
    if kind == 2 {
        put_payload(out, word);
        return 8;
    }
    if kind == 3 {
        put_payload(out, one_nan(word));
        return 8;
    }
    if kind == 4 {
        return put_text(out, constant::text_of(const_words, texts, word));
    }
    if kind == 5 {
        put_hex(out, 2, prototype(frames, word));
        return 1;
    }
    put_hex(out, 2, (word % 256) as u8);
    1
}

fn print_value(
    rt: &impl Print,
    kind: u8,
    word: u64,
    const_words: &[u64],
    texts: &[u8],
    frames: &[u64],
) -> io::Result<()> {
    let mut out = [b' '; 133];
    put_hex(&mut out, 0, 0xb0);
    put_hex(&mut out, 1, kind);
    let n = put_value(&mut out, kind, word, const_words, texts, frames);
    rt.write_all(&out[..5 + 2 * n])
}

// ---- what a run answers

// The values that a Return names in the window of the only activation.
fn print_returned(
    rt: &impl Print,
    w: u64,
    kinds: &[u8],
    words: &[u64],
    const_words: &[u64],
    texts: &[u8],
    frames: &[u64],
) -> io::Result<()> {
    let start = image::a_of(w) as usize;
    let n = image::b_of(w) as usize;
    let mut i: usize = 0;
    while i < n {
        let kind = slices::get(kinds, start, i);
        let word = slices::get(words, start, i);
        print_value(rt, kind, word, const_words, texts, frames)?;
        i += 1;
    }
    Ok(())
}

fn print_place(rt: &impl Print, o: Outcome) -> io::Result<()> {
    print!(rt; " {} {}", o.prototype, o.instruction)
}

// ---- a program

// How many returned, and how many raised an error.
#[derive(Clone, Copy)]
struct Tally {
    returned: u64,
    raised: u64,
}

fn counted(t: Tally, number: u8) -> Tally {
    if number == 0 {
        return Tally {
            returned: std::num::wrapping_add_u64(t.returned, 1),
            raised: t.raised,
        };
    }
    Tally {
        returned: t.returned,
        raised: std::num::wrapping_add_u64(t.raised, 1),
    }
}

// Runs what is started, and writes the answer; its number.
fn answer(
    rt: &impl Print,
    table: &[u64],
    code: &[u64],
    const_kinds: &[u8],
    const_words: &[u64],
    texts: &[u8],
    frames: &mut [u64],
    kinds: &mut [u8],
    words: &mut [u64],
) -> io::Result<u8> {
    let o = vm::run(
        table,
        code,
        const_kinds,
        const_words,
        texts,
        frames,
        kinds,
        words,
        BUDGET,
    );
    rt.print(o.number)?;
    if o.number == 0 {
        let w = storage::instruction(table, code, o.prototype, o.instruction);
        print_returned(rt, w, kinds, words, const_words, texts, frames)?;
    } else {
        print_place(rt, o)?;
    }
    rt.println("")?;
    Ok(o.number)
}

// One image; the number of its answer.
fn run(rt: &impl Print, s: &[u8]) -> io::Result<u8> {
    let mut table = [0u64; storage::TABLE];
    let mut code = [0u64; storage::CODE];
    let mut const_kinds = [0u8; storage::CONSTANTS];
    let mut const_words = [0u64; storage::CONSTANTS];
    let mut texts = [0u8; storage::TEXTS];
    let r = reader::read(
        s,
        &mut table,
        &mut code,
        &mut const_kinds,
        &mut const_words,
        &mut texts,
    );
    if let Err(refusal) = r {
        rt.println("not read")?;
        return Ok(refusal.error.number());
    }
    let mut frames = [0u64; state::FRAMES];
    let mut kinds = [0u8; state::REGISTERS];
    let mut words = [0u64; state::REGISTERS];
    let no_kinds = [0u8; 0];
    let no_words = [0u64; 0];
    let c = starter::start(
        &table,
        &code,
        &const_kinds,
        &const_words,
        &texts,
        &mut frames,
        &mut kinds,
        &mut words,
        &no_kinds,
        &no_words,
    );
    if let Err(refusal) = c {
        rt.println("not started")?;
        return Ok(refusal.number);
    }
    answer(
        rt,
        &table,
        &code,
        &const_kinds,
        &const_words,
        &texts,
        &mut frames,
        &mut kinds,
        &mut words,
    )
}

// ---- the list

// Where the line that ends at e has its last byte behind it: after the LF, where there is one.
fn behind(s: &[u8], e: usize) -> usize
    requires { e ≤ length s.now }
    ensures { (e ≤ result) × (result ≤ e + 1) × (result ≤ length s.now) }
{
    if e < s.len() {
        return e + 1;
    }
    e
}

fn echo(rt: &impl Print, line: &[u8]) -> io::Result<()> {
    rt.write_all(line)?;
    rt.println("")
}

// Where the image begins that the next line belongs to, and the tally so far.
#[derive(Clone, Copy)]
struct Played {
    start: usize,
    tally: Tally,
}

// The line from `at` to e.
fn play_line(rt: &impl Print, s: &[u8], p: Played, at: usize, e: usize) -> io::Result<Played>
    requires { (p.start ≤ at) × (at ≤ e) × (e ≤ length s.now) }
    ensures { IfOk result (λ next. next.start ≤ e + 1) }
{
    let kind = slices::get(s, at, 0);
    let start = p.start;
    let tally = p.tally;
    if kind == b'#' {
        echo(rt, &s[at..e])?;
        return Ok(Played {
            start: e + 1,
            tally,
        });
    }
    if kind == b'e' {
        let end = behind(s, e);
        let n = run(rt, &s[start..end])?;
        return Ok(Played {
            start: e + 1,
            tally: counted(tally, n),
        });
    }
    Ok(p)
}

fn print_totals(rt: &impl Print, t: Tally) -> io::Result<()> {
    let all = std::num::wrapping_add_u64(t.returned, t.raised);
    println!(rt;
        "{all} programs: {} returned, {} raised an error",
        t.returned, t.raised
    )
}

fn play(rt: &impl Print, s: &[u8]) -> io::Result<()> {
    let mut at = 0;
    let mut p = Played {
        start: 0,
        tally: Tally {
            returned: 0,
            raised: 0,
        },
    };
    while at < s.len() {
        let e = lists::find(s, at, b'\n');
        p = play_line(rt, s, p, at, e)?;
        at = e + 1;
    }
    print_totals(rt, p.tally)
}

fn main(rt: HostRuntime) -> io::Result<()> {
    let mut list = [0u8; 1048576];
    let n = lists::read_full(&rt, &mut list)?;
    play(&rt, &list[..n])
}
