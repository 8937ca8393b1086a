// Replays outside cases of starting and running: images, changes of the storage and of the state, arguments and budgets,
// on standard input. After each start and each run it writes the answer, and then every cell of the state that is
// another than before. tools/states/cases.py makes the list, and by tools/oracle what must be written.
//
// An answer's line begins with (numbers are decimal)
//   > number prototype instruction                  of a start; > 0 where nothing is refused
//   ! number count prototype instruction operand    of a run; the operand that is named, or 0
//   ? number count prototype instruction operand    of how the machine stands
// and each cell behind it is as in a change below, without its =.
//
// A line of the list is one of (numbers are hexadecimal)
//   # words                a case's name, written as it is; every cell of the storage becomes 0, of the state 5a, but of
//                          closure entries, cells and what these hold, which become 0
//   a0.. d1.. b0.. c0.. e0..  a line of the case's image
//   <                      the image is read
//   =f1:2                  cell 1 of the frames becomes 2 (t table, c code, k and w kinds and words of constants, x texts,
//                          f frames, r and v kinds and words of registers)
//   0                      every cell of the state becomes 0
//   >11111111:12..         a start; each of the eight slices is one cell short (0), as published (1) or one longer (2);
//                          one kind and two words of arguments are lent; then each argument's kind and word, 2 and 16 digits
//   !11111111:00000005     a run on budget 5
//   ?11111111              how the machine stands
#![tactic(auto)]

ghost use Rattle.std.specs.Prelude.{◌≤◌, length, IfOk};

use checker::Refusal;
use std::io;
use step::Outcome;

// ---- what is written

fn print(rt: &impl Print, x: u64) -> io::Result<()> {
    print!(rt; " {x}")
}

fn print_started(rt: &impl Print, r: Result<(), Refusal>) -> io::Result<()> {
    rt.print(">")?;
    match r {
        Ok(()) => print(rt, 0),
        Err(refusal) => {
            print(rt, refusal.number as u64)?;
            print(rt, refusal.prototype as u64)?;
            print(rt, refusal.instruction as u64)
        }
    }
}

fn print_outcome(rt: &impl Print, o: Outcome) -> io::Result<()> {
    print(rt, o.number as u64)?;
    print(rt, o.count as u64)?;
    print(rt, o.prototype as u64)?;
    print(rt, o.instruction as u64)?;
    print(rt, o.operand as u64)
}

// A cell that is another than before: its slice, place and content.
fn print_cell(rt: &impl Print, slice: &[u8], i: usize, was: u64, is: u64) -> io::Result<()> {
    if was == is {
        return Ok(());
    }
    rt.write_all(slice)?;
    print!(rt; "{i:x}:{is:x}")
}

fn print_words(rt: &impl Print, slice: &[u8], was: &[u64], is: &[u64]) -> io::Result<()> {
    let mut i = 0;
    while i < is.len() {
        print_cell(rt, slice, i, slices::get(was, 0, i), is[i])?;
        i += 1;
    }
    Ok(())
}

fn wide(b: u8) -> u64 {
    b as u64
}

fn print_bytes(rt: &impl Print, slice: &[u8], was: &[u8], is: &[u8]) -> io::Result<()> {
    let mut i = 0;
    while i < is.len() {
        print_cell(rt, slice, i, wide(slices::get(was, 0, i)), wide(is[i]))?;
        i += 1;
    }
    Ok(())
}

// ---- a line of the list

// How many of the n arguments' kinds or words are lent, as digit i of a line has it.
fn count_at(line: &[u8], i: usize, n: usize) -> usize
    ensures { result ≤ n }
{
    let count = lists::digit_at(line, 0, i);
    if n < count {
        return n;
    }
    count
}

// ---- changes

// Cell i of the slice that a letter names becomes v.
fn put(
    slice: u8,
    i: usize,
    v: u64,
    table: &mut [u64],
    code: &mut [u64],
    const_kinds: &mut [u8],
    const_words: &mut [u64],
    texts: &mut [u8],
    frames: &mut [u64],
    kinds: &mut [u8],
    words: &mut [u64],
) {
    let b = (v % 256) as u8;
    match slice {
        b't' => slices::put(table, 0, i, v),
        b'c' => slices::put(code, 0, i, v),
        b'k' => slices::put(const_kinds, 0, i, b),
        b'w' => slices::put(const_words, 0, i, v),
        b'x' => slices::put(texts, 0, i, b),
        b'f' => slices::put(frames, 0, i, v),
        b'r' => slices::put(kinds, 0, i, b),
        _ => slices::put(words, 0, i, v),
    }
}

fn change(
    line: &[u8],
    table: &mut [u64],
    code: &mut [u64],
    const_kinds: &mut [u8],
    const_words: &mut [u64],
    texts: &mut [u8],
    frames: &mut [u64],
    kinds: &mut [u8],
    words: &mut [u64],
) {
    let colon = lists::find(line, 0, b':');
    if colon < 2 {
        return;
    }
    if line.len() <= colon {
        return;
    }
    let first = colon + 1;
    let i = lists::number_at(line, 2, colon - 2) as usize;
    let v = lists::number_at(line, first, line.len() - first);
    put(
        slices::get(line, 0, 1),
        i,
        v,
        table,
        code,
        const_kinds,
        const_words,
        texts,
        frames,
        kinds,
        words,
    );
}

// No closure entry and no cell is in use: 64 of nine words and 128 of one behind the activations' closures, the cells'
// values behind the registers.
fn free(frames: &mut [u64], kinds: &mut [u8], words: &mut [u64]) {
    slices::fill(frames, state::ENTRY_AT, state::FRAMES - state::ENTRY_AT, 0);
    slices::fill(kinds, state::CELL_ROOM, state::CELLS, 0);
    slices::fill(words, state::CELL_ROOM, state::CELLS, 0);
}

fn clear(frames: &mut [u64], kinds: &mut [u8], words: &mut [u64]) {
    slices::fill(frames, 0, frames.len(), 0);
    slices::fill(kinds, 0, kinds.len(), 0);
    slices::fill(words, 0, words.len(), 0);
}

// ---- answers

// The arguments that a line says.
fn take_arguments(line: &[u8], kinds: &mut [u8], words: &mut [u64]) {
    let mut i = 0;
    while i < 15 {
        let at = 12 + 18 * i;
        let k = (lists::number_at(line, at, 2) % 256) as u8;
        slices::put(kinds, 0, i, k);
        slices::put(words, 0, i, lists::number_at(line, at + 2, 16));
        i += 1;
    }
}

fn start_with(
    rt: &impl Print,
    line: &[u8],
    table: &[u64],
    code: &[u64],
    const_kinds: &[u8],
    const_words: &[u64],
    texts: &[u8],
    frames: &mut [u64],
    kinds: &mut [u8],
    words: &mut [u64],
    arg_kinds: &[u8],
    arg_words: &[u64],
) -> io::Result<()> {
    let a = lists::lent(line, 1, table.len());
    let b = lists::lent(line, 2, code.len());
    let c = lists::lent(line, 3, const_kinds.len());
    let d = lists::lent(line, 4, const_words.len());
    let e = lists::lent(line, 5, texts.len());
    let f = lists::lent(line, 6, frames.len());
    let g = lists::lent(line, 7, kinds.len());
    let h = lists::lent(line, 8, words.len());
    let n = count_at(line, 10, arg_kinds.len());
    let m = count_at(line, 11, arg_words.len());
    let r = starter::start(
        &table[..a],
        &code[..b],
        &const_kinds[..c],
        &const_words[..d],
        &texts[..e],
        &mut frames[..f],
        &mut kinds[..g],
        &mut words[..h],
        &arg_kinds[..n],
        &arg_words[..m],
    );
    print_started(rt, r)
}

fn start(
    rt: &impl Print,
    line: &[u8],
    table: &[u64],
    code: &[u64],
    const_kinds: &[u8],
    const_words: &[u64],
    texts: &[u8],
    frames: &mut [u64],
    kinds: &mut [u8],
    words: &mut [u64],
) -> io::Result<()> {
    let mut arg_kinds = [0u8; 15];
    let mut arg_words = [0u64; 15];
    take_arguments(line, &mut arg_kinds, &mut arg_words);
    start_with(
        rt,
        line,
        table,
        code,
        const_kinds,
        const_words,
        texts,
        frames,
        kinds,
        words,
        &arg_kinds,
        &arg_words,
    )
}

fn run(
    rt: &impl Print,
    line: &[u8],
    table: &[u64],
    code: &[u64],
    const_kinds: &[u8],
    const_words: &[u64],
    texts: &[u8],
    frames: &mut [u64],
    kinds: &mut [u8],
    words: &mut [u64],
) -> io::Result<()> {
    let budget = (lists::number_at(line, 10, 8) % 0x1_0000_0000) as u32;
    let a = lists::lent(line, 1, table.len());
    let b = lists::lent(line, 2, code.len());
    let c = lists::lent(line, 3, const_kinds.len());
    let d = lists::lent(line, 4, const_words.len());
    let e = lists::lent(line, 5, texts.len());
    let f = lists::lent(line, 6, frames.len());
    let g = lists::lent(line, 7, kinds.len());
    let h = lists::lent(line, 8, words.len());
    let o = vm::run(
        &table[..a],
        &code[..b],
        &const_kinds[..c],
        &const_words[..d],
        &texts[..e],
        &mut frames[..f],
        &mut kinds[..g],
        &mut words[..h],
        budget,
    );
    rt.print("!")?;
    print_outcome(rt, o)
}

fn stand(
    rt: &impl Print,
    line: &[u8],
    table: &[u64],
    code: &[u64],
    const_kinds: &[u8],
    const_words: &[u64],
    texts: &[u8],
    frames: &[u64],
    kinds: &[u8],
    words: &[u64],
) -> io::Result<()> {
    let a = lists::lent(line, 1, table.len());
    let b = lists::lent(line, 2, code.len());
    let c = lists::lent(line, 3, const_kinds.len());
    let d = lists::lent(line, 4, const_words.len());
    let e = lists::lent(line, 5, texts.len());
    let f = lists::lent(line, 6, frames.len());
    let g = lists::lent(line, 7, kinds.len());
    let h = lists::lent(line, 8, words.len());
    let o = vm::standing(
        &table[..a],
        &code[..b],
        &const_kinds[..c],
        &const_words[..d],
        &texts[..e],
        &frames[..f],
        &kinds[..g],
        &words[..h],
    );
    rt.print("?")?;
    print_outcome(rt, o)
}

// ---- a case

fn act(
    rt: &impl Print,
    line: &[u8],
    table: &[u64],
    code: &[u64],
    const_kinds: &[u8],
    const_words: &[u64],
    texts: &[u8],
    frames: &mut [u64],
    kinds: &mut [u8],
    words: &mut [u64],
) -> io::Result<()> {
    match slices::get(line, 0, 0) {
        b'>' => start(
            rt,
            line,
            table,
            code,
            const_kinds,
            const_words,
            texts,
            frames,
            kinds,
            words,
        ),
        b'!' => run(
            rt,
            line,
            table,
            code,
            const_kinds,
            const_words,
            texts,
            frames,
            kinds,
            words,
        ),
        _ => stand(
            rt,
            line,
            table,
            code,
            const_kinds,
            const_words,
            texts,
            frames,
            kinds,
            words,
        ),
    }
}

// A start or a run, and what it changes.
fn answer(
    rt: &impl Print,
    line: &[u8],
    table: &[u64],
    code: &[u64],
    const_kinds: &[u8],
    const_words: &[u64],
    texts: &[u8],
    frames: &mut [u64],
    kinds: &mut [u8],
    words: &mut [u64],
) -> io::Result<()> {
    let mut was_frames = [0u64; state::FRAMES + 1];
    let mut was_kinds = [0u8; state::REGISTERS + 1];
    let mut was_words = [0u64; state::REGISTERS + 1];
    slices::copy_from(frames, 0, &mut was_frames, 0, state::FRAMES + 1);
    slices::copy_from(kinds, 0, &mut was_kinds, 0, state::REGISTERS + 1);
    slices::copy_from(words, 0, &mut was_words, 0, state::REGISTERS + 1);
    act(
        rt,
        line,
        table,
        code,
        const_kinds,
        const_words,
        texts,
        frames,
        kinds,
        words,
    )?;
    print_words(rt, b" f", &was_frames, frames)?;
    print_bytes(rt, b" r", &was_kinds, kinds)?;
    print_words(rt, b" v", &was_words, words)?;
    rt.println("")
}

fn play_line(
    rt: &impl Print,
    line: &[u8],
    table: &mut [u64],
    code: &mut [u64],
    const_kinds: &mut [u8],
    const_words: &mut [u64],
    texts: &mut [u8],
    frames: &mut [u64],
    kinds: &mut [u8],
    words: &mut [u64],
) -> io::Result<()> {
    match slices::get(line, 0, 0) {
        b'<' => Ok(()),
        b'=' => {
            change(
                line,
                table,
                code,
                const_kinds,
                const_words,
                texts,
                frames,
                kinds,
                words,
            );
            Ok(())
        }
        b'0' => {
            clear(frames, kinds, words);
            Ok(())
        }
        _ => answer(
            rt,
            line,
            table,
            code,
            const_kinds,
            const_words,
            texts,
            frames,
            kinds,
            words,
        ),
    }
}

fn play_lines(
    rt: &impl Print,
    s: &[u8],
    table: &mut [u64],
    code: &mut [u64],
    const_kinds: &mut [u8],
    const_words: &mut [u64],
    texts: &mut [u8],
    frames: &mut [u64],
    kinds: &mut [u8],
    words: &mut [u64],
) -> io::Result<()> {
    let mut at = 0;
    while at < s.len() {
        let e = lists::find(s, at, b'\n');
        play_line(
            rt,
            &s[at..e],
            table,
            code,
            const_kinds,
            const_words,
            texts,
            frames,
            kinds,
            words,
        )?;
        at = e + 1;
    }
    Ok(())
}

// A case: its name, its image, and the lines after it. Every slice is one cell longer than published.
fn play_case(rt: &impl Print, s: &[u8]) -> io::Result<()> {
    let mut table = [0u64; storage::TABLE + 1];
    let mut code = [0u64; storage::CODE + 1];
    let mut const_kinds = [0u8; storage::CONSTANTS + 1];
    let mut const_words = [0u64; storage::CONSTANTS + 1];
    let mut texts = [0u8; storage::TEXTS + 1];
    let mut frames = [0x5a5a_5a5a_5a5a_5a5au64; state::FRAMES + 1];
    let mut kinds = [0x5au8; state::REGISTERS + 1];
    let mut words = [0x5a5a_5a5a_5a5a_5a5au64; state::REGISTERS + 1];
    free(&mut frames, &mut kinds, &mut words);
    let n = lists::find(s, 0, b'\n');
    if s.len() <= n {
        return Ok(());
    }
    let first = n + 1;
    rt.write_all(&s[..first])?;
    let m = lists::find(s, first, b'<');
    let r = reader::read(
        &s[first..m],
        &mut table,
        &mut code,
        &mut const_kinds,
        &mut const_words,
        &mut texts,
    );
    if r.is_err() {
        return rt.println("not read");
    }
    play_lines(
        rt,
        &s[m..],
        &mut table,
        &mut code,
        &mut const_kinds,
        &mut const_words,
        &mut texts,
        &mut frames,
        &mut kinds,
        &mut words,
    )
}

// ---- the list

fn play(rt: &impl Print, s: &[u8]) -> io::Result<()> {
    let mut at = 0;
    while at < s.len() {
        let e = lists::find(s, at + 1, b'#');
        play_case(rt, &s[at..e])?;
        at = e;
    }
    Ok(())
}

fn main(rt: HostRuntime) -> io::Result<()> {
    let mut list = [0u8; 1048576];
    let n = lists::read_full(&rt, &mut list)?;
    play(&rt, &list[..n])
}
