// What the entry points for C do, which the static library has under these names (`machine_c`); include/deletion_machine.h
// says how they are called. Each returns the number, and writes the number, the count, the prototype, the instruction or
// line and the operand to `answer`.
ghost use Rattle.std.specs.Prelude.{◌≡◌, ◌%◌, ◌^◌, set};
ghost use Rattle.storage.specs.Layout.{storage_in, storage_old, storage_out};
ghost use Rattle.state.specs.States.{state_in, state_seen, state_out};
ghost use Rattle.machine.specs.Face.{said, saying, saying5, saying6, leaving, bytes_told, text_answer, version, dm_read, dm_write, dm_check, dm_start, dm_run, dm_returned, dm_text};

use crate::{Span, TextRefusal};
use step::Outcome;
use writer::WriteRefusal;

// How long `answer` has to be.
pub const ANSWER: usize = 8;

// ---- telling an answer

// The low 32 bits: no place gets beyond them.
fn low(x: usize) -> u32
    ensures { result ≡ x % 2 ^ 32 }
{
    (x % 0x1_0000_0000) as u32
}

fn put(answer: &mut [u32], at: usize, x: u32)
    ensures { answer.new ≡ set answer.old at x }
{
    if at < answer.len() {
        answer[at] = x;
    }
}

fn tell(answer: &mut [u32], o: Outcome) -> u32
    ensures { said result answer.new ≡ saying o answer.old }
{
    let number = o.number as u32;
    put(answer, 0, number);
    put(answer, 1, o.count);
    put(answer, 2, low(o.prototype));
    put(answer, 3, low(o.instruction));
    put(answer, 6, low(o.operand));
    number
}

fn tell5(answer: &mut [u32], o: Outcome, x: usize) -> u32
    ensures { said result answer.new ≡ saying5 o x answer.old }
{
    let number = tell(answer, o);
    put(answer, 4, low(x));
    number
}

fn tell6(answer: &mut [u32], o: Outcome, x: usize, y: usize) -> u32
    ensures { said result answer.new ≡ saying6 o x y answer.old }
{
    let number = tell5(answer, o, x);
    put(answer, 5, low(y));
    number
}

// ---- the functions

pub fn dm_version() -> u32
    ensures { result ≡ version }
{
    300
}

pub fn dm_read(
    image: &[u8],
    table: &mut [u64],
    code: &mut [u64],
    const_kinds: &mut [u8],
    const_words: &mut [u64],
    texts: &mut [u8],
    answer: &mut [u32],
) -> u32
    ensures { leaving (said result answer.new) (storage_out table code const_kinds const_words texts) ≡ dm_read image.now (storage_old table code const_kinds const_words texts) answer.old }
{
    if answer.len() < ANSWER {
        return 5;
    }
    let r = crate::read(image, table, code, const_kinds, const_words, texts);
    tell(answer, crate::read_answer(r))
}

fn bytes_of(r: Result<usize, WriteRefusal>) -> usize
    ensures { result ≡ bytes_told r }
{
    match r {
        Ok(n) => n,
        Err(_) => 0,
    }
}

pub fn dm_write(
    table: &[u64],
    code: &[u64],
    const_kinds: &[u8],
    const_words: &[u64],
    texts: &[u8],
    out: &mut [u8],
    answer: &mut [u32],
) -> u32
    ensures { leaving (said result answer.new) out.new ≡ dm_write (storage_in table code const_kinds const_words texts) out.old answer.old }
{
    if answer.len() < ANSWER {
        return 5;
    }
    let r = crate::write(table, code, const_kinds, const_words, texts, out);
    tell5(answer, crate::write_answer(r), bytes_of(r))
}

pub fn dm_check(
    table: &[u64],
    code: &[u64],
    const_kinds: &[u8],
    const_words: &[u64],
    texts: &[u8],
    answer: &mut [u32],
) -> u32
    ensures { said result answer.new ≡ dm_check (storage_in table code const_kinds const_words texts) answer.old }
{
    if answer.len() < ANSWER {
        return 5;
    }
    let r = crate::check(table, code, const_kinds, const_words, texts);
    tell(answer, crate::check_answer(r))
}

pub fn dm_start(
    table: &[u64],
    code: &[u64],
    const_kinds: &[u8],
    const_words: &[u64],
    texts: &[u8],
    frames: &mut [u64],
    kinds: &mut [u8],
    words: &mut [u64],
    arg_kinds: &[u8],
    arg_words: &[u64],
    answer: &mut [u32],
) -> u32
    ensures { leaving (said result answer.new) (state_out frames kinds words) ≡ dm_start (storage_in table code const_kinds const_words texts) arg_kinds.now arg_words.now (state_in frames kinds words) answer.old }
{
    if answer.len() < ANSWER {
        return 5;
    }
    let r = crate::start(
        table,
        code,
        const_kinds,
        const_words,
        texts,
        frames,
        kinds,
        words,
        arg_kinds,
        arg_words,
    );
    tell(answer, crate::check_answer(r))
}

pub fn dm_run(
    table: &[u64],
    code: &[u64],
    const_kinds: &[u8],
    const_words: &[u64],
    texts: &[u8],
    frames: &mut [u64],
    kinds: &mut [u8],
    words: &mut [u64],
    budget: u32,
    answer: &mut [u32],
) -> u32
    ensures { leaving (said result answer.new) (state_out frames kinds words) ≡ dm_run (storage_in table code const_kinds const_words texts) budget (state_in frames kinds words) answer.old }
{
    if answer.len() < ANSWER {
        return 60;
    }
    let o = crate::run(
        table,
        code,
        const_kinds,
        const_words,
        texts,
        frames,
        kinds,
        words,
        budget,
    );
    tell(answer, o)
}

pub fn dm_returned(
    table: &[u64],
    code: &[u64],
    const_kinds: &[u8],
    const_words: &[u64],
    texts: &[u8],
    frames: &[u64],
    kinds: &[u8],
    words: &[u64],
    answer: &mut [u32],
) -> u32
    ensures { said result answer.new ≡ dm_returned (storage_in table code const_kinds const_words texts) (state_seen frames kinds words) answer.old }
{
    if answer.len() < ANSWER {
        return 60;
    }
    let r = crate::returned(
        table,
        code,
        const_kinds,
        const_words,
        texts,
        frames,
        kinds,
        words,
    );
    let o = r.answer;
    tell6(answer, o, r.first, r.count)
}

fn tell_span(answer: &mut [u32], r: Result<Span, TextRefusal>) -> u32
    ensures { said result answer.new ≡ text_answer r answer.old }
{
    match r {
        Ok(span) => tell6(answer, Outcome::new(0, 0, 0, 0), span.start, span.count),
        Err(refusal) => tell6(answer, Outcome::new(refusal as u8, 0, 0, 0), 0, 0),
    }
}

pub fn dm_text(
    table: &[u64],
    code: &[u64],
    const_kinds: &[u8],
    const_words: &[u64],
    texts: &[u8],
    word: u64,
    answer: &mut [u32],
) -> u32
    ensures { said result answer.new ≡ dm_text (storage_in table code const_kinds const_words texts) word answer.old }
{
    if answer.len() < ANSWER {
        return 5;
    }
    let r = crate::text_span(table, code, const_kinds, const_words, texts, word);
    tell_span(answer, r)
}
