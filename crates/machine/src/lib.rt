// The public entry points in one place: for any contents of what is lent there is one answer, and one content is left.
// Those of other crates are handed on as they are, with their promises; `face` has all of them for C.
#![tactic(auto)]

pub mod face;

ghost use Rattle.std.specs.Prelude.{◌≡◌, List, ℕ};
ghost use Rattle.storage.specs.Layout.{storage, storage_in};
ghost use Rattle.state.specs.States.{state_seen};
ghost use Rattle.machine.specs.Answers.{read_answer, write_answer, check_answer};
ghost use Rattle.machine.specs.Results.{named, returned_of, is_string, span_of};

use checker::{Class, Refusal};
use image::ReadRefusal;
use step::Outcome;
use writer::WriteRefusal;

// ---- an image: text to storage, storage to text, and whether the machine can carry it out

pub use checker::check;
pub use reader::read;
pub use writer::write;

// ---- a machine: started on prototype 0 with arguments, each a kind and a word; and run, on a budget

pub use starter::start;
pub use vm::run;

// ---- an answer's number, count and place

pub fn read_answer(r: Result<usize, ReadRefusal>) -> Outcome
    ensures { result ≡ read_answer r }
{
    match r {
        Ok(_) => Outcome::new(0, 0, 0, 0),
        Err(refusal) => Outcome::new(refusal.error.number(), 0, 0, refusal.line),
    }
}

pub fn write_answer(r: Result<usize, WriteRefusal>) -> Outcome
    ensures { result ≡ write_answer r }
{
    match r {
        Ok(_) => Outcome::new(0, 0, 0, 0),
        Err(refusal) => Outcome::new(refusal.number(), 0, 0, 0),
    }
}

// The checker's, and a start's.
pub fn check_answer(r: Result<(), Refusal>) -> Outcome
    ensures { result ≡ check_answer r }
{
    match r {
        Ok(()) => Outcome::new(0, 0, 0, 0),
        Err(refusal) => Outcome::new(refusal.number, 0, refusal.prototype, refusal.instruction),
    }
}

// ---- results

// What a machine stands at, and of a finished one the first register that its Return names and how many values.
#[derive(Clone, Copy, Debug, PartialEq, Eq)]
pub struct Values {
    pub answer: Outcome,
    pub first: usize,
    pub count: usize,
}

// What a Return names.
#[tactic(auto, unfolding(crate::specs::Results::named))]
fn named(o: Outcome, c: Class) -> Values
    ensures { result ≡ named o c }
{
    match c {
        Class::Returns(first, count) => Values {
            answer: o,
            first,
            count,
        },
        _ => Values {
            answer: o,
            first: 0,
            count: 0,
        },
    }
}

// The answer of a run on no budget, and where the returned values are.
pub fn returned(
    table: &[u64],
    code: &[u64],
    const_kinds: &[u8],
    const_words: &[u64],
    texts: &[u8],
    frames: &[u64],
    kinds: &[u8],
    words: &[u64],
) -> Values
    ensures { result ≡ returned_of (storage_in table code const_kinds const_words texts) (state_seen frames kinds words) }
{
    let o = vm::standing(
        table,
        code,
        const_kinds,
        const_words,
        texts,
        frames,
        kinds,
        words,
    );
    if o.number != 0 {
        return Values {
            answer: o,
            first: 0,
            count: 0,
        };
    }
    let i = fitness::decoded(table, code, o.prototype, o.instruction);
    named(o, checker::class_of(i))
}

// A string's place in the texts: where its bytes begin, and how many they are.
#[derive(Clone, Copy, Debug, PartialEq, Eq)]
pub struct Span {
    pub start: usize,
    pub count: usize,
}

// Why a string has no place, with the documents' numbers.
#[derive(Clone, Copy, Debug, PartialEq, Eq)]
pub enum TextRefusal {
    // The lent slices are too short.
    TooShort = 5,
    // No image reads to the storage.
    NoImage = 6,
    // The word is no string's of this image.
    NoString = 20,
}

fn is_string(table: &[u64], const_kinds: &[u8], word: usize) -> bool
    ensures { (c w x : List ℕ) → result ≡ is_string (storage table.now c const_kinds.now w x) word }
{
    let n = storage::first_constant(table, storage::prototypes(table));
    (word < n) & (slices::get(const_kinds, 0, word) == 4)
}

// Where the bytes of a string are: `word` is the number of its constant in the whole image, as a register holds it.
#[tactic(auto, unfolding(crate::specs::Results::span_of, storage::specs::Stored::valid_of))]
pub fn text_span(
    table: &[u64],
    code: &[u64],
    const_kinds: &[u8],
    const_words: &[u64],
    texts: &[u8],
    word: u64,
) -> Result<Span, TextRefusal>
    ensures { result ≡ span_of (storage_in table code const_kinds const_words texts) word }
{
    if !storage::is_long_enough(table, code, const_kinds, const_words, texts) {
        return Err(TextRefusal::TooShort);
    }
    if storage::valid(table, code, const_kinds, const_words, texts).is_none() {
        return Err(TextRefusal::NoImage);
    }
    if !is_string(table, const_kinds, word as usize) {
        return Err(TextRefusal::NoString);
    }
    let w = slices::get(const_words, 0, word as usize);
    Ok(Span {
        start: (w / 65536) as usize,
        count: (w % 65536) as usize,
    })
}
