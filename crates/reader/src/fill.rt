// The second pass: an image's frames, appended one after the other to the lent slices.
ghost use Rattle.std.specs.Prelude.{◌≡◌, ◌+◌, ◌-◌, ◌*◌, ◌/◌, ◌≤◌, true, [], ◌∷◌, length, take, drop, slice_set};
ghost use Rattle.std.proofs.lemmas.List.Edits.{sets};
ghost use Rattle.image.specs.Hex.{paired, bytes_of};
ghost use Rattle.image.specs.Frames.{shape, frame_of, frames_of};
ghost use Rattle.storage.specs.Fields.{descriptors_place};
ghost use Rattle.storage.specs.Layout.{descriptor_word};
ghost use Rattle.reader.specs.Steps.{Small, descriptor_put, FramePut, Suffice, Filled};

use crate::{hex, view};
use image::Frame;
use storage::Tops;

// The n bytes of a string's line, from its third on.
fn put_text(line: &[u8], n: usize, texts: &mut [u8], top: usize)
    requires { (paired line.now ≡ true) × (2 * n + 4 ≤ length line.now) }
    ensures { texts.new ≡ sets texts.old top (take n (drop 2 (bytes_of line.now))) }
{
    let mut i = 0;
    while i < n {
        let b = hex::byte_at(line, 2 + i);
        slices::put(texts, top, i, b);
        i = i + 1;
    }
}

// An entry of the table: registers, parameters, first constant, first instruction.
fn put_entry(table: &mut [u64], at: usize, r: u64, p: u64, c: u64, k: u64)
    ensures { table.new ≡ sets table.old at (r ∷ p ∷ c ∷ k ∷ []) }
{
    slices::put(table, at, 0, r);
    slices::put(table, at, 1, p);
    slices::put(table, at, 2, c);
    slices::put(table, at, 3, k);
}

// The prototype that was opened last, where the next entry goes to `at`; 0 where none was.
fn opened_last(at: usize) -> usize
    ensures { result ≡ at / 4 - 1 }
{
    if at < storage::ENTRY {
        return 0;
    }
    at / storage::ENTRY - 1
}

// Prototype q has no descriptors so far.
fn put_none(table: &mut [u64], q: usize)
    requires { q ≤ 1048576 }
    ensures { table.new ≡ slice_set table.old (descriptors_place q) 0 }
{
    slices::put(table, storage::DESCRIPTORS_AT, storage::DESCRIPTORS * q, 0);
}

// Prototype q's descriptor d, its last one so far: kind and number.
fn put_descriptor(table: &mut [u64], q: usize, d: usize, kind: u8, n: u8)
    requires { (q ≤ 1048576) × (d ≤ 1048576) }
    ensures { table.new ≡ descriptor_put q d (descriptor_word kind n) table.old }
{
    let place = storage::DESCRIPTORS_AT + storage::DESCRIPTORS * q;
    let w = (kind as u64) * 256 + (n as u64);
    slices::put(table, place, 1 + d, w);
    slices::put(table, place, 0, (d + 1) as u64);
}

// One frame; what is handed back is how far each slice is filled now.
fn put_frame(
    line: &[u8],
    f: Frame,
    mut t: Tops,
    table: &mut [u64],
    code: &mut [u64],
    const_kinds: &mut [u8],
    const_words: &mut [u64],
    texts: &mut [u8],
) -> Tops
    requires f_value { f ≡ shape (frame_of line.now) }
    requires small { Small t }
    ensures { FramePut t result (frame_of line.now) table.old table.new code.old code.new const_kinds.old const_kinds.new const_words.old const_words.new texts.old texts.new }
{
    let at = t.entries;
    let k = t.codes;
    let c = t.consts;
    let top = t.texts;
    let d = t.descs;
    match f {
        Frame::Open(r, p) => {
            put_entry(table, at, r as u64, p as u64, c as u64, k as u64);
            put_none(table, at / storage::ENTRY);
            t.entries = at + 4;
            t.descs = 0;
        }
        Frame::Const(tag, w) => {
            slices::put(const_kinds, c, 0, tag);
            slices::put(const_words, c, 0, w);
            t.consts = c + 1;
        }
        Frame::Str(n) => {
            slices::put(const_kinds, c, 0, 4);
            slices::put(const_words, c, 0, (top * 65536 + n) as u64);
            put_text(line, n, texts, top);
            t.consts = c + 1;
            t.texts = top + n;
        }
        Frame::Code(w) => {
            slices::put(code, k, 0, w);
            t.codes = k + 1;
        }
        Frame::End(_) => {
            put_entry(table, at, 0, 0, c as u64, k as u64);
            t.entries = at + 4;
        }
        Frame::Bad(_) => {}
        Frame::Desc(kind, n) => {
            put_descriptor(table, opened_last(at), d, kind, n);
            t.descs = d + 1;
        }
    }
    t
}

// An image of n prototypes: their number, then every frame in order.
pub(crate) fn fill_all(
    s: &[u8],
    n: usize,
    table: &mut [u64],
    code: &mut [u64],
    const_kinds: &mut [u8],
    const_words: &mut [u64],
    texts: &mut [u8],
)
    requires { Suffice n (frames_of s.now) }
    ensures { Filled n (frames_of s.now) table.old table.new code.old code.new const_kinds.old const_kinds.new const_words.old const_words.new texts.old texts.new }
{
    slices::put(table, 0, 0, n as u64);
    let mut at = 0;
    let mut t = Tops {
        entries: 1,
        codes: 0,
        consts: 0,
        texts: 0,
        descs: 0,
    };
    while at < s.len() {
        let line = view::frame_at(s, at);
        let f = line.frame;
        let e = line.end;
        let next = line.next;
        if s.len() <= e {
            return;
        }
        t = put_frame(
            &s[at..e],
            f,
            t,
            table,
            code,
            const_kinds,
            const_words,
            texts,
        );
        at = next;
    }
}
