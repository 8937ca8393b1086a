// Whether a state is fit to run, for any contents of the lent slices: document 01's list, test by test, and behind it what
// document 02 says of entries, cells and activations.
#![tactic(auto)]

ghost use Rattle.std.specs.Prelude.{◌≡◌, ◌≤◌};
ghost use Rattle.storage.specs.Layout.{storage_in};
ghost use Rattle.storage.specs.Stored.{reads_back};
ghost use Rattle.state.specs.Frames.{depth_in, base_of};
ghost use Rattle.fitness.specs.Fit.{mark_fits, decoded_at, is_call, is_return, there_in, before_in, waits_in, stack_fits, end_fits, value_fits, register_fits, values_fit, upvalue_fits, entry_fits, cell_fits, closure_fits, closures_fit, fit_of};
ghost use Rattle.state.specs.States.{state_seen};
ghost use Rattle.fitness.specs.Held.{held};

use checker::{Class, Instruction};

// ---- 5 and 6

#[tactic(auto, using(crate::proofs::Parts::some_back))]
fn reads_back(
    table: &[u64],
    code: &[u64],
    const_kinds: &[u8],
    const_words: &[u64],
    texts: &[u8],
) -> bool
    ensures { result ≡ reads_back (storage_in table code const_kinds const_words texts) }
{
    storage::valid(table, code, const_kinds, const_words, texts).is_some()
}

// ---- the mark

// Running, finished, or a Lua error's number.
#[tactic(auto, unfolding(crate::specs::Fit::mark_fits))]
fn mark_fits(m: u8) -> bool
    ensures { result ≡ mark_fits m }
{
    matches!(m, 0 | 70) || state::is_lua_error(m)
}

// ---- instructions of activations

// The instruction at place p of prototype q; one that is not there is bad.
#[tactic(auto, unfolding(crate::specs::Fit::decoded_at))]
pub fn decoded(table: &[u64], code: &[u64], q: usize, p: usize) -> Instruction
    ensures { result ≡ decoded_at table.now code.now q p }
{
    if storage::instructions(table, q) <= p {
        return Instruction::Bad(14);
    }
    checker::decode(checker::site_of(table, code, q, p))
}

fn is_call(c: Class) -> bool
    ensures { result ≡ is_call c }
{
    matches!(c, Class::Calls(_, _))
}

fn is_return(c: Class) -> bool
    ensures { result ≡ is_return c }
{
    matches!(c, Class::Returns(_, _))
}

// ---- the stack of activations

// Whether activation i names a prototype and an instruction that are there.
#[tactic(auto, unfolding(crate::specs::Fit::there_in))]
fn is_there(table: &[u64], frames: &[u64], i: usize) -> bool
    ensures { result ≡ there_in table.now frames.now i }
{
    let q = state::prototype_of(frames, i);
    let p = state::instruction_of(frames, i);
    q < storage::prototypes(table) && p < storage::instructions(table, q)
}

// The instruction before that of activation i.
#[tactic(auto, unfolding(crate::specs::Fit::before_in))]
pub fn instruction_before(table: &[u64], code: &[u64], frames: &[u64], i: usize) -> Instruction
    ensures { result ≡ before_in table.now code.now frames.now i }
{
    let p = state::instruction_of(frames, i);
    if p == 0 {
        return Instruction::Bad(14);
    }
    let q = state::prototype_of(frames, i);
    decoded(table, code, q, p - 1)
}

// Whether activation i stands just after a Call.
#[tactic(auto, unfolding(crate::specs::Fit::waits_in))]
fn waits(table: &[u64], code: &[u64], frames: &[u64], i: usize) -> bool
    ensures { result ≡ waits_in table.now code.now frames.now i }
{
    is_call(checker::class_of(instruction_before(table, code, frames, i)))
}

fn stack_fits(table: &[u64], code: &[u64], frames: &[u64]) -> bool
    ensures { result ≡ stack_fits table.now code.now frames.now }
{
    let depth = state::depth(frames);
    if !matches!(depth, 1..=16) || state::base_of(table, frames, depth) > 2048 {
        return false;
    }
    (0..depth).all(|i| is_there(table, frames, i))
        && (0..depth - 1).all(|i| waits(table, code, frames, i))
}

// A finished machine is one activation at a Return.
#[tactic(auto, unfolding(crate::specs::Fit::end_fits))]
fn end_fits(table: &[u64], code: &[u64], frames: &[u64]) -> bool
    ensures { result ≡ end_fits table.now code.now frames.now }
{
    if state::mark(frames) != 0 {
        return true;
    }
    let q = state::prototype_of(frames, 0);
    let p = state::instruction_of(frames, 0);
    state::depth(frames) == 1 && is_return(checker::class_of(decoded(table, code, q, p)))
}

// ---- the live registers

// What values are judged by: the image's table and constants, the machine's frames and registers.
#[derive(Clone, Copy)]
struct View<'a> {
    table: &'a [u64],
    const_kinds: &'a [u8],
    frames: &'a [u64],
    kinds: &'a [u8],
    words: &'a [u64],
}

impl<'a> View<'a> {
    // Whether a kind and a word are a value of this image: a function's entry is in use, and a string's constant is there
    // and is a string.
    #[tactic(auto, unfolding(crate::specs::Fit::value_fits))]
    fn value_fits(self, kind: u8, word: u64) -> bool
        ensures { result ≡ value_fits self.entry.table.now self.entry.const_kinds.now self.entry.frames.now kind word }
    {
        if !constant::is_value(kind, word) {
            return false;
        }
        let at = word as usize;
        match kind {
            4 => {
                let constants = storage::first_constant(
                    self.table,
                    storage::prototypes(self.table),
                );
                at < constants && slices::get(self.const_kinds, 0, at) == 4
            }
            5 => cells::entry(self.frames, at) > 0,
            _ => true,
        }
    }

    #[tactic(auto, unfolding(crate::specs::Fit::register_fits))]
    fn register_fits(self, r: usize) -> bool
        ensures { result ≡ register_fits self.entry.table.now self.entry.const_kinds.now self.entry.frames.now self.entry.kinds.now self.entry.words.now r }
    {
        let kind = slices::get(self.kinds, 0, r);
        let word = slices::get(self.words, 0, r);
        self.value_fits(kind, word)
    }

    // Where the live registers end.
    #[tactic(auto, using(state::proofs::Windows::clip_in))]
    fn end(self) -> usize
        requires { base_of self.table.now self.frames.now (depth_in self.frames.now) ≤ 2048 }
        ensures { result ≡ base_of self.entry.table.now self.entry.frames.now (depth_in self.entry.frames.now) }
    {
        state::base_of(self.table, self.frames, state::depth(self.frames))
    }

    fn values_fit(self) -> bool
        requires { base_of self.table.now self.frames.now (depth_in self.frames.now) ≤ 2048 }
        ensures { result ≡ values_fit self.entry.table.now self.entry.const_kinds.now (held self.entry) }
    {
        (0..self.end()).all(|r| self.register_fits(r))
    }
}

// ---- closures: entries, cells, and what activations hold of them

// Whether upvalue j of entry e, whose prototype has n descriptors, is a cell in use, or none where there is no descriptor.
#[tactic(auto, unfolding(crate::specs::Fit::upvalue_fits))]
fn upvalue_fits(frames: &[u64], e: usize, n: usize, j: usize) -> bool
    ensures { result ≡ upvalue_fits frames.now e n j }
{
    let x = cells::upvalue(frames, e, j);
    if j >= n {
        return x == 0;
    }
    x > 0 && cells::cell(frames, (x - 1) as usize) > 0
}

// A free entry is told by its first word.
#[tactic(auto, unfolding(crate::specs::Fit::entry_fits))]
fn entry_fits(table: &[u64], frames: &[u64], e: usize) -> bool
    ensures { result ≡ entry_fits table.now frames.now e }
{
    let x = cells::entry(frames, e) as usize;
    if x == 0 {
        return true;
    }
    let n = storage::descriptors(table, x - 1);
    x <= storage::prototypes(table) && (0..state::UPVALUES).all(|j| upvalue_fits(frames, e, n, j))
}

// The outermost activation has no closure and no use for one; any other has one of its prototype.
#[tactic(auto, unfolding(crate::specs::Fit::closure_fits))]
fn closure_fits(table: &[u64], frames: &[u64], i: usize) -> bool
    ensures { result ≡ closure_fits table.now frames.now i }
{
    let c = state::closure_of(frames, i);
    let q = state::prototype_of(frames, i);
    if i == 0 {
        return c == 0 && storage::descriptors(table, q) == 0;
    }
    c > 0 && (cells::entry(frames, c - 1) as usize).checked_sub(1) == Some(q)
}

impl<'a> View<'a> {
    // A free cell is told by its word; only for an open one, on a register below `end`, are the others asked for the same
    // word.
    #[tactic(auto, using(cells::proofs::Laws::used), unfolding(crate::specs::Fit::cell_fits))]
    fn cell_fits(self, end: usize, c: usize) -> bool
        ensures { result ≡ cell_fits self.entry.table.now self.entry.const_kinds.now (held self.entry) end c }
    {
        match cells::cell(self.frames, c) {
            0 => true,
            1 => self.register_fits(state::CELL_ROOM + c),
            x => ((x - 2) as usize) < end && cells::cell_with(self.frames, x) == c,
        }
    }

    fn closures_fit(self) -> bool
        requires { base_of self.table.now self.frames.now (depth_in self.frames.now) ≤ 2048 }
        ensures { result ≡ closures_fit self.entry.table.now self.entry.const_kinds.now (held self.entry) }
    {
        let end = self.end();
        (0..state::ENTRIES).all(|e| entry_fits(self.table, self.frames, e))
            && (0..state::CELLS).all(|c| self.cell_fits(end, c))
            && (0..state::depth(self.frames)).all(|i| closure_fits(self.table, self.frames, i))
    }
}

// ---- the whole test

#[tactic(auto, using(crate::proofs::Facts::stack_inside), unfolding(crate::specs::Fit::fit_of))]
pub fn fit(
    table: &[u64],
    code: &[u64],
    const_kinds: &[u8],
    const_words: &[u64],
    texts: &[u8],
    frames: &[u64],
    kinds: &[u8],
    words: &[u64],
) -> bool
    ensures { result ≡ fit_of (storage_in table code const_kinds const_words texts) (state_seen frames kinds words) }
{
    let view = View {
        table,
        const_kinds,
        frames,
        kinds,
        words,
    };
    storage::is_long_enough(table, code, const_kinds, const_words, texts)
        && state::is_long_enough(frames, kinds, words)
        && reads_back(table, code, const_kinds, const_words, texts)
        && mark_fits(state::mark(frames))
        && state::operand(frames) <= 3
        && stack_fits(table, code, frames)
        && end_fits(table, code, frames)
        && view.values_fit()
        && view.closures_fit()
}
