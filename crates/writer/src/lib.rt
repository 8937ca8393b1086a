// Writes a storage back as the image that reads to it.
#![tactic(auto)]

mod hex;
mod line;

ghost use Rattle.std.specs.Prelude.{◌≡◌, [], ◌∷◌, ◌++◌, ℕ, ◌+◌, ◌<◌};
ghost use Rattle.image.specs.Write.{written};
ghost use Rattle.storage.specs.Layout.{storage, storage_in};
ghost use Rattle.storage.specs.Fields.{prototypes_of};
ghost use Rattle.storage.specs.Stored.{const_frame, const_frames, code_frames, desc_frames, proto_frames, image_in};
ghost use Rattle.writer.specs.Writing.{write_number, Written, line_of, Lined};
ghost use Rattle.writer.specs.Putting.{Room, Put, Slim, Narrow};

// Why nothing is written.
#[derive(Clone, Copy, Debug, PartialEq, Eq)]
pub enum WriteRefusal {
    // The lent slices are too short, or the output is shorter than the image.
    TooShort,
    // No image reads to the storage.
    NoImage,
    // Another number: `write` answers none.
    Other(u8),
}

impl WriteRefusal {
    // The documents' number.
    pub fn number(self) -> u8
        ensures { result ≡ write_number self }
    {
        match self {
            WriteRefusal::TooShort => 5,
            WriteRefusal::NoImage => 6,
            WriteRefusal::Other(n) => n,
        }
    }
}

// ---- the storage's frames in their order, each put behind the one before; the place after the last is answered

// Constant i of those from `first` on.
fn put_constant(
    const_kinds: &[u8],
    const_words: &[u64],
    texts: &[u8],
    first: usize,
    i: usize,
    out: &mut [u8],
    at: usize,
) -> usize
    requires { Room out.old at (written (const_frame (storage [] [] const_kinds.now const_words.now texts.now) (first + i) ∷ [])) }
    ensures { Put out.old at (written (const_frame (storage [] [] const_kinds.now const_words.now texts.now) (first + i) ∷ [])) result out.new }
{
    let kind = slices::get(const_kinds, first, i);
    let w = slices::get(const_words, first, i);
    if kind == 4 {
        return line::put_string(out, at, slices::text_at(texts, w));
    }
    line::put_const(out, at, kind, w)
}

// n constants.
fn put_constants(
    const_kinds: &[u8],
    const_words: &[u64],
    texts: &[u8],
    first: usize,
    n: usize,
    out: &mut [u8],
    at: usize,
) -> usize
    requires { Room out.old at (written (const_frames (storage [] [] const_kinds.now const_words.now texts.now) n first)) }
    ensures { Put out.old at (written (const_frames (storage [] [] const_kinds.now const_words.now texts.now) n first)) result out.new }
{
    let mut to = at;
    let mut i = 0;
    while i < n {
        to = put_constant(const_kinds, const_words, texts, first, i, out, to);
        i += 1;
    }
    to
}

// n instructions.
fn put_instructions(code: &[u64], first: usize, n: usize, out: &mut [u8], at: usize) -> usize
    requires { Room out.old at (written (code_frames (storage [] code.now [] [] []) n first)) }
    ensures { Put out.old at (written (code_frames (storage [] code.now [] [] []) n first)) result out.new }
{
    let mut to = at;
    let mut i = 0;
    while i < n {
        to = line::put_code(out, to, slices::get(code, first, i));
        i += 1;
    }
    to
}

// n descriptors of prototype q.
fn put_descriptors(table: &[u64], q: usize, n: usize, out: &mut [u8], at: usize) -> usize
    requires { Slim table.now q n × Room out.old at (written (desc_frames (storage table.now [] [] [] []) q n 0)) }
    ensures { Put out.old at (written (desc_frames (storage table.now [] [] [] []) q n 0)) result out.new }
{
    let mut to = at;
    let mut i = 0;
    while i < n {
        let w = storage::descriptor(table, q, i);
        to = line::put_desc(out, to, (w / 256) as u8, (w % 256) as u8);
        i += 1;
    }
    to
}

// Prototype q.
fn put_prototype(
    table: &[u64],
    code: &[u64],
    const_kinds: &[u8],
    const_words: &[u64],
    texts: &[u8],
    q: usize,
    out: &mut [u8],
    at: usize,
) -> usize
    requires { Narrow table.now q × Room out.old at (written (proto_frames (storage table.now code.now const_kinds.now const_words.now texts.now) q)) }
    ensures { Put out.old at (written (proto_frames (storage_in table code const_kinds const_words texts) q)) result out.new }
{
    let registers = storage::registers(table, q) as u8;
    let parameters = storage::parameters(table, q) as u8;
    let consts = storage::first_constant(table, q);
    let consts_n = storage::constants(table, q);
    let codes = storage::first_instruction(table, q);
    let codes_n = storage::instructions(table, q);
    let descs_n = storage::descriptors(table, q);
    let t = line::put_open(out, at, registers, parameters);
    let u = put_descriptors(table, q, descs_n, out, t);
    let v = put_constants(const_kinds, const_words, texts, consts, consts_n, out, u);
    put_instructions(code, codes, codes_n, out, v)
}

// All prototypes, and the last line.
fn put_image(
    table: &[u64],
    code: &[u64],
    const_kinds: &[u8],
    const_words: &[u64],
    texts: &[u8],
    out: &mut [u8],
) -> usize
    requires { (prototypes_of table.now < 256) × (((q : ℕ) → q < prototypes_of table.now → Narrow table.now q) × Room out.old 0 (image_in (storage table.now code.now const_kinds.now const_words.now texts.now))) }
    ensures { Put out.old 0 (image_in (storage_in table code const_kinds const_words texts)) result out.new }
{
    let n = storage::prototypes(table);
    let mut to = 0;
    let mut q = 0;
    while q < n {
        to = put_prototype(table, code, const_kinds, const_words, texts, q, out, to);
        q += 1;
    }
    line::put_end(out, to, n as u8)
}

// ---- the writer

// How many bytes were written.
pub fn write(
    table: &[u64],
    code: &[u64],
    const_kinds: &[u8],
    const_words: &[u64],
    texts: &[u8],
    out: &mut [u8],
) -> Result<usize, WriteRefusal>
    ensures { Written (storage_in table code const_kinds const_words texts) result out.old out.new }
{
    if !storage::is_long_enough(table, code, const_kinds, const_words, texts) {
        return Err(WriteRefusal::TooShort);
    }
    let Some(n) = storage::valid(table, code, const_kinds, const_words, texts) else {
        return Err(WriteRefusal::NoImage);
    };
    if out.len() < n {
        return Err(WriteRefusal::TooShort);
    }
    put_image(table, code, const_kinds, const_words, texts, out);
    Ok(n)
}

// ---- one line

// The line that says `head` and then `tail`, at the front of the output. How long it is; 0 where it has no room, and
// then nothing is written.
pub fn write_line(head: &[u8], tail: &[u8], out: &mut [u8]) -> usize
    ensures { Lined (line_of (head.now ++ tail.now)) result out.old out.new }
{
    if out.len() / 2 < head.len() {
        return 0;
    }
    let room = out.len() - 2 * head.len();
    if room / 2 < tail.len() {
        return 0;
    }
    if room - 2 * tail.len() < 1 {
        return 0;
    }
    let t = hex::put_text(out, 0, head);
    let u = hex::put_text(out, t, tail);
    line::put_lf(out, u)
}
