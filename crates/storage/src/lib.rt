// The layout of a read image in lent slices: its published sizes, its fields by name, and the test behind 6, whether
// any image reads to a storage's contents. specs/Layout says what lies where.
#![tactic(auto)]

ghost use Rattle.std.specs.Prelude.{◌≡◌, cond, leb, ◌+◌, ◌-◌, ◌/◌, ◌≤◌, ◌<◌};
ghost use Rattle.storage.specs.Layout.{long_enough, storage_in};
ghost use Rattle.storage.specs.Fields.{prototypes_of, field, registers_of, parameters_of, first_constant, first_instruction, descriptors_of, descriptor_of, constants_of, instructions_of, instruction_at, constant_kind, constant_word};
ghost use Rattle.storage.specs.Stored.{valid_of};
ghost use Rattle.storage.specs.Cursor.{next_text, next_const, next_code, next_entry, next_desc, next_frame, size_of, past};

use image::{Counts, Frame, ReadError, Step};

// The published sizes: how long the slices have to be.
pub const TABLE: usize = 421;

pub const CODE: usize = 5041;

pub const CONSTANTS: usize = 8448;

pub const TEXTS: usize = 32768;

// Whether the lent slices are long enough; if not, 5 is the answer.
pub fn is_long_enough(
    table: &[u64],
    code: &[u64],
    const_kinds: &[u8],
    const_words: &[u64],
    texts: &[u8],
) -> bool
    ensures { result ≡ long_enough (storage_in table code const_kinds const_words texts) }
{
    if table.len() < TABLE {
        return false;
    }
    if code.len() < CODE {
        return false;
    }
    if const_kinds.len() < CONSTANTS {
        return false;
    }
    if const_words.len() < CONSTANTS {
        return false;
    }
    if texts.len() < TEXTS {
        return false;
    }
    true
}

// ---- fields by name

// Where they lie in the table: the number of prototypes, then the entries, each of so many words, and in it its fields.
pub const PROTOTYPES_AT: usize = 0;

pub const ENTRIES_AT: usize = 1;

pub const ENTRY: usize = 4;

pub const REGISTERS_AT: usize = 0;

pub const PARAMETERS_AT: usize = 1;

pub const CONSTANT_AT: usize = 2;

pub const INSTRUCTION_AT: usize = 3;

// Behind the entries: of each prototype the number of its descriptors, then these.
pub const DESCRIPTORS_AT: usize = 133;

pub const DESCRIPTORS: usize = 9;

pub fn prototypes(table: &[u64]) -> usize
    ensures { result ≡ prototypes_of table.now }
{
    slices::get(table, 0, PROTOTYPES_AT) as usize
}

// Field i of prototype q's entry; a prototype that is not there has zeros.
fn field_at(table: &[u64], q: usize, i: usize) -> usize
    requires { i < 4 }
    ensures { result ≡ field i table.now q }
{
    if table.len() <= q {
        return 0;
    }
    slices::get(table, ENTRIES_AT + ENTRY * q, i) as usize
}

pub fn registers(table: &[u64], q: usize) -> usize
    ensures { result ≡ registers_of table.now q }
{
    field_at(table, q, REGISTERS_AT)
}

pub fn parameters(table: &[u64], q: usize) -> usize
    ensures { result ≡ parameters_of table.now q }
{
    field_at(table, q, PARAMETERS_AT)
}

pub fn first_constant(table: &[u64], q: usize) -> usize
    ensures { result ≡ first_constant table.now q }
{
    field_at(table, q, CONSTANT_AT)
}

pub fn first_instruction(table: &[u64], q: usize) -> usize
    ensures { result ≡ first_instruction table.now q }
{
    field_at(table, q, INSTRUCTION_AT)
}

// How many descriptors prototype q has.
pub fn descriptors(table: &[u64], q: usize) -> usize
    ensures { result ≡ descriptors_of table.now q }
{
    if table.len() <= q {
        return 0;
    }
    slices::get(table, DESCRIPTORS_AT, DESCRIPTORS * q) as usize
}

// Its descriptor i: a register of the parent, or 256 and a number of the parent's upvalues.
pub fn descriptor(table: &[u64], q: usize, i: usize) -> usize
    ensures { result ≡ descriptor_of table.now q i }
{
    if table.len() <= q {
        return 0;
    }
    if table.len() <= i {
        return 0;
    }
    slices::get(table, DESCRIPTORS_AT + DESCRIPTORS * q, 1 + i) as usize
}

// How much field i grows from prototype q's entry to the next.
fn growth(table: &[u64], q: usize, i: usize) -> usize
    requires { i < 4 }
    ensures { result ≡ field i table.now (q + 1) - field i table.now q }
{
    if table.len() <= q {
        return 0;
    }
    let first = field_at(table, q, i);
    let end = field_at(table, q + 1, i);
    if end <= first {
        return 0;
    }
    end - first
}

pub fn constants(table: &[u64], q: usize) -> usize
    ensures { result ≡ constants_of table.now q }
{
    growth(table, q, CONSTANT_AT)
}

pub fn instructions(table: &[u64], q: usize) -> usize
    ensures { result ≡ instructions_of table.now q }
{
    growth(table, q, INSTRUCTION_AT)
}

// Instruction i of prototype q.
pub fn instruction(table: &[u64], code: &[u64], q: usize, i: usize) -> u64
    ensures { result ≡ instruction_at table.now code.now q i }
{
    let first = first_instruction(table, q);
    slices::get(code, first, i)
}

// Constant c of prototype q, as a register holds it.
pub fn constant_kind(table: &[u64], const_kinds: &[u8], q: usize, c: usize) -> u8
    ensures { result ≡ constant_kind table.now const_kinds.now q c }
{
    let first = first_constant(table, q);
    slices::get(const_kinds, first, c)
}

pub fn constant_word(
    table: &[u64],
    const_kinds: &[u8],
    const_words: &[u64],
    q: usize,
    c: usize,
) -> u64
    ensures { result ≡ constant_word table.now const_kinds.now const_words.now q c }
{
    let first = first_constant(table, q);
    let kind = slices::get(const_kinds, first, c);
    if kind == 4 {
        return (first + c) as u64;
    }
    slices::get(const_words, first, c)
}

// ---- the test behind 6: the storage's frames, one after the other

// A cursor over the storage: where the next entry is; how many instructions, constants and bytes of texts are passed; and
// how many descriptors of the prototype that was opened last.
#[derive(Clone, Copy)]
pub struct Tops {
    pub entries: usize,
    pub codes: usize,
    pub consts: usize,
    pub texts: usize,
    pub descs: usize,
}

// A string's word: it starts where the texts are passed up to; `n` is how many bytes of texts there are.
fn next_text(top: usize, w: u64, n: usize) -> Frame
    requires { top ≤ 65536 }
    ensures { result ≡ next_text top w n }
{
    let base = (top as u64) * 65536;
    if w < base {
        return Frame::Bad(ReadError::Other(6));
    }
    let len = w - base;
    if 64 < len {
        return Frame::Bad(ReadError::Other(6));
    }
    let m = len as usize;
    if n < top + m {
        return Frame::Bad(ReadError::Other(6));
    }
    Frame::Str(m)
}

fn next_const(t: Tops, const_kinds: &[u8], const_words: &[u64], texts: &[u8]) -> Frame
    requires { t.texts ≤ 65536 }
    ensures { result ≡ next_const t const_kinds.now const_words.now texts.now }
{
    let c = t.consts;
    let top = t.texts;
    if const_kinds.len() <= c {
        return Frame::Bad(ReadError::Other(6));
    }
    if const_words.len() <= c {
        return Frame::Bad(ReadError::Other(6));
    }
    let kind = const_kinds[c];
    let w = const_words[c];
    if kind < 4 {
        if w <= image::most_of(kind) {
            return Frame::Const(kind, w);
        }
        return Frame::Bad(ReadError::Other(6));
    }
    if kind == 4 {
        return next_text(top, w, texts.len());
    }
    Frame::Bad(ReadError::Other(6))
}

fn next_code(t: Tops, code: &[u64]) -> Frame
    ensures { result ≡ next_code t code.now }
{
    let k = t.codes;
    if code.len() <= k {
        return Frame::Bad(ReadError::Other(6));
    }
    let w = code[k];
    if w < 0x100_0000_0000 {
        return Frame::Code(w);
    }
    Frame::Bad(ReadError::Other(6))
}

// An entry of the table: of no registers, the closing one.
fn next_entry(t: Tops, r: u64, p: u64) -> Frame
    requires { t.entries ≤ 129 }
    ensures { result ≡ next_entry t r p }
{
    if r == 0 {
        if p == 0 {
            let at = t.entries;
            return Frame::End((at / 4) as u8);
        }
        return Frame::Bad(ReadError::Other(6));
    }
    if 255 < r {
        return Frame::Bad(ReadError::Other(6));
    }
    if r < p {
        return Frame::Bad(ReadError::Other(6));
    }
    Frame::Open(r as u8, p as u8)
}

// A descriptor's word.
fn next_desc(w: usize) -> Frame
    ensures { result ≡ next_desc w }
{
    if w < 512 {
        return Frame::Desc((w / 256) as u8, (w % 256) as u8);
    }
    Frame::Bad(ReadError::Other(6))
}

// How many descriptors the prototype that was opened last has; 0 where none is open.
fn descriptors_here(table: &[u64], at: usize) -> usize
    ensures { result ≡ cond (leb 5 at) (descriptors_of table.now (at / 4 - 1)) 0 }
{
    if at < 5 {
        return 0;
    }
    descriptors(table, at / 4 - 1)
}

// The frame that comes next: the last prototype's descriptors, constants up to the next entry's first, then instructions up to its first, then the entry.
fn next_from(
    t: Tops,
    table: &[u64],
    code: &[u64],
    const_kinds: &[u8],
    const_words: &[u64],
    texts: &[u8],
) -> Frame
    requires { (t.entries ≤ 129) × (t.texts ≤ 65536) }
    ensures { result ≡ next_frame t table.now code.now const_kinds.now const_words.now texts.now }
{
    let at = t.entries;
    let c = t.consts as u64;
    let k = t.codes as u64;
    if table.len() < at + 4 {
        return Frame::Bad(ReadError::Other(6));
    }
    let d = t.descs;
    if d < descriptors_here(table, at) {
        return next_desc(descriptor(table, at / 4 - 1, d));
    }
    let cs = table[at + 2];
    let ks = table[at + 3];
    if c < cs {
        return next_const(t, const_kinds, const_words, texts);
    }
    if c == cs {
        if k < ks {
            return next_code(t, code);
        }
        if k == ks {
            return next_entry(t, table[at], table[at + 1]);
        }
        return Frame::Bad(ReadError::Other(6));
    }
    Frame::Bad(ReadError::Other(6))
}

// How many bytes a frame's line has.
fn size_of(f: Frame) -> usize
    requires { size_of f ≤ 1000 }
    ensures { result ≡ size_of f }
{
    match f {
        Frame::Open(_, _) => 7,
        Frame::Const(k, _) => 5 + 2 * image::payload_of(k),
        Frame::Str(n) => 5 + 2 * n,
        Frame::Code(_) => 13,
        Frame::End(_) => 5,
        Frame::Bad(_) => 1,
        Frame::Desc(_, _) => 7,
    }
}

fn past_of(t: Tops, f: Frame) -> Tops
    requires { (size_of f ≤ 1000) × ((t.entries ≤ 1048576) × ((t.codes ≤ 1048576) × ((t.consts ≤ 1048576) × ((t.texts ≤ 1048576) × (t.descs ≤ 1048576))))) }
    ensures { result ≡ past t f }
{
    let at = t.entries;
    let k = t.codes;
    let c = t.consts;
    let top = t.texts;
    let d = t.descs;
    match f {
        Frame::Open(_, _) => Tops {
            entries: at + 4,
            codes: k,
            consts: c,
            texts: top,
            descs: 0,
        },
        Frame::Const(_, _) => Tops {
            entries: at,
            codes: k,
            consts: c + 1,
            texts: top,
            descs: d,
        },
        Frame::Str(n) => Tops {
            entries: at,
            codes: k,
            consts: c + 1,
            texts: top + n,
            descs: d,
        },
        Frame::Code(_) => Tops {
            entries: at,
            codes: k + 1,
            consts: c,
            texts: top,
            descs: d,
        },
        Frame::End(_) => Tops {
            entries: at + 4,
            codes: k,
            consts: c,
            texts: top,
            descs: d,
        },
        Frame::Bad(_) => Tops {
            entries: at,
            codes: k,
            consts: c,
            texts: top,
            descs: d,
        },
        Frame::Desc(_, _) => Tops {
            entries: at,
            codes: k,
            consts: c,
            texts: top,
            descs: d + 1,
        },
    }
}

// How many bytes the image has that reads to a storage; `None` where none does, and 6 is the answer. The frames go one after
// the other, judged as the reader judges them. A byte more than an image may have ends it.
pub fn valid(
    table: &[u64],
    code: &[u64],
    const_kinds: &[u8],
    const_words: &[u64],
    texts: &[u8],
) -> Option<usize>
    ensures { result ≡ valid_of (storage_in table code const_kinds const_words texts) }
{
    let mut t = Tops {
        entries: 1,
        codes: 0,
        consts: 0,
        texts: 0,
        descs: 0,
    };
    let mut st = Counts {
        protos: 0,
        consts: 0,
        codes: 0,
        descs: 0,
    };
    let mut b = 0;
    while b <= 65536 {
        let f = next_from(t, table, code, const_kinds, const_words, texts);
        let u = image::step_on(st, f);
        match u {
            Step::No(_) => {
                return None;
            }
            Step::Done => {
                let n = b + size_of(f);
                if 65536 < n {
                    return None;
                }
                if prototypes(table) == st.protos {
                    return Some(n);
                }
                return None;
            }
            Step::On(v) => {
                t = past_of(t, f);
                st = v;
                b = b + size_of(f);
            }
        }
    }
    None
}
