// All that the program writes, from the bytes of an image: it is read, started and run, without arguments and on a budget
// of 1,000,000 where nothing else is given; then the answer's line is written, and after 0 a line for each returned value.
ghost use Rattle.std.specs.Prelude.{◌≡◌, ◌+◌, ◌≤◌, length};
ghost use Rattle.storage.specs.Layout.{storage_in};
ghost use Rattle.state.specs.States.{state_in};
ghost use Rattle.step.specs.Run.{run_of};
ghost use Rattle.writer.specs.Putting.{Room, Put};
ghost use Rattle.deletion.specs.Output.{given, plainly, value_line, value_lines, shown_of, ended_output, stored_output, output_size, Output};

use crate::lines;
use machine::Values;
use step::Outcome;

// Document 01's.
const BUDGET: u32 = 1_000_000;

// How long an output has to be for any image: the answer's line, and 255 values, each a string of 64 bytes at most.
pub(crate) const OUTPUT: usize = 33_936;

// ---- values

// The line of the value in register first + i, from `at` on; the place after it is answered.
fn put_value(
    const_words: &[u64],
    texts: &[u8],
    frames: &[u64],
    kinds: &[u8],
    words: &[u64],
    first: usize,
    i: usize,
    out: &mut [u8],
    at: usize,
) -> usize
    requires { Room out.old at (value_line const_words.now texts.now frames.now kinds.now words.now (first + i)) }
    ensures { Put out.old at (value_line const_words.now texts.now frames.now kinds.now words.now (first + i)) result out.new }
{
    let kind = slices::get(kinds, first, i);
    let word = slices::get(words, first, i);
    let text = constant::text_of(const_words, texts, word);
    let q = state::previous(cells::entry(frames, word as usize) as usize);
    let n = lines::value_line(kind, word, text, q as u64, &mut out[at..]);
    at + n
}

// The lines of the values in n registers from `first` on.
fn put_values(
    const_words: &[u64],
    texts: &[u8],
    frames: &[u64],
    kinds: &[u8],
    words: &[u64],
    first: usize,
    n: usize,
    out: &mut [u8],
    at: usize,
) -> usize
    requires { Room out.old at (value_lines const_words.now texts.now frames.now kinds.now words.now n first) }
    ensures { Put out.old at (value_lines const_words.now texts.now frames.now kinds.now words.now n first) result out.new }
{
    let mut to = at;
    for i in 0..n {
        to = put_value(const_words, texts, frames, kinds, words, first, i, out, to);
    }
    to
}

// How many values are written: after 0 those that were returned, after any other answer none.
#[tactic(auto, unfolding(crate::specs::Output::shown_of))]
fn shown(o: Outcome, r: Values) -> usize
    ensures { result ≡ shown_of o r }
{
    if o.number == 0 { r.count } else { 0 }
}

// ---- the run

// Runs the started machine on the budget: its answer, and the values that it returned.
fn put_run(
    table: &[u64],
    code: &[u64],
    const_kinds: &[u8],
    const_words: &[u64],
    texts: &[u8],
    frames: &mut [u64],
    kinds: &mut [u8],
    words: &mut [u64],
    budget: u32,
    out: &mut [u8],
) -> usize
    requires { output_size ≤ length out.old }
    ensures { Put out.old 0 (ended_output (storage_in table code const_kinds const_words texts) (run_of (storage_in table code const_kinds const_words texts) budget (state_in frames kinds words))) result out.new }
{
    let o = machine::run(
        table,
        code,
        const_kinds,
        const_words,
        texts,
        frames,
        kinds,
        words,
        budget,
    );
    let at = lines::answer_line(o, out);
    let r = machine::returned(
        table,
        code,
        const_kinds,
        const_words,
        texts,
        frames,
        kinds,
        words,
    );
    let n = shown(o, r);
    let first = r.first;
    put_values(const_words, texts, frames, kinds, words, first, n, out, at)
}

// Starts the image that was read, with these arguments, and runs it.
fn put_stored(
    table: &[u64],
    code: &[u64],
    const_kinds: &[u8],
    const_words: &[u64],
    texts: &[u8],
    budget: u32,
    arg_kinds: &[u8],
    arg_words: &[u64],
    out: &mut [u8],
) -> usize
    requires { output_size ≤ length out.old }
    ensures { Put out.old 0 (stored_output (given budget arg_kinds.now arg_words.now) (storage_in table code const_kinds const_words texts)) result out.new }
{
    let mut frames = [0u64; state::FRAMES];
    let mut kinds = [0u8; state::REGISTERS];
    let mut words = [0u64; state::REGISTERS];
    let c = machine::start(
        table,
        code,
        const_kinds,
        const_words,
        texts,
        &mut frames,
        &mut kinds,
        &mut words,
        arg_kinds,
        arg_words,
    );
    match c {
        Ok(()) => put_run(
            table,
            code,
            const_kinds,
            const_words,
            texts,
            &mut frames,
            &mut kinds,
            &mut words,
            budget,
            out,
        ),
        Err(_) => lines::answer_line(machine::check_answer(c), out),
    }
}

// ---- the image

pub(crate) fn output_given(
    image: &[u8],
    budget: u32,
    arg_kinds: &[u8],
    arg_words: &[u64],
    out: &mut [u8; OUTPUT],
) -> usize
    ensures { Output (given budget arg_kinds.now arg_words.now) image.now result out.old out.new }
{
    let mut table = [0u64; storage::TABLE];
    let mut code = [0u64; storage::CODE];
    let mut const_kinds = [0u8; storage::CONSTANTS];
    let mut const_words = [0u64; storage::CONSTANTS];
    let mut texts = [0u8; storage::TEXTS];
    let j = machine::read(
        image,
        &mut table,
        &mut code,
        &mut const_kinds,
        &mut const_words,
        &mut texts,
    );
    match j {
        Ok(_) => put_stored(
            &table,
            &code,
            &const_kinds,
            &const_words,
            &texts,
            budget,
            arg_kinds,
            arg_words,
            out,
        ),
        Err(_) => lines::answer_line(machine::read_answer(j), out),
    }
}

// What document 01's program writes.
pub(crate) fn output(image: &[u8], out: &mut [u8; OUTPUT]) -> usize
    ensures { Output plainly image.now result out.old out.new }
{
    let no_kinds = [0u8; 0];
    let no_words = [0u64; 0];
    output_given(image, BUDGET, &no_kinds, &no_words, out)
}
