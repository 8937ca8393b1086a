// The lines that the program writes, each at the front of an output.
ghost use Rattle.std.specs.Prelude.{◌≡◌, [], ◌∷◌, ◌%◌};
ghost use Rattle.image.specs.Write.{word_bytes};
ghost use Rattle.writer.specs.Writing.{line_of, Lined};
ghost use Rattle.deletion.specs.Lines.{answer_bytes, value_bytes};

use step::Outcome;

fn low(x: u64) -> u8
    ensures { result ≡ x % 256 }
{
    (x % 256) as u8
}

fn line(bytes: &[u8], out: &mut [u8]) -> usize
    ensures { Lined (line_of bytes.now) result out.old out.new }
{
    writer::write_line(bytes, &bytes[..0], out)
}

// The `f0` line of an answer.
pub(crate) fn answer_line(o: Outcome, out: &mut [u8]) -> usize
    ensures { Lined (line_of (answer_bytes o)) result out.old out.new }
{
    let c = o.count as u64;
    let q = o.prototype as u64;
    let p = o.instruction as u64;
    let n = o.operand as u64;
    let bytes = [
        0xf0,
        o.number,
        low(c / 256 / 256 / 256),
        low(c / 256 / 256),
        low(c / 256),
        low(c),
        low(q),
        low(p / 256),
        low(p),
        low(n),
    ];
    line(&bytes, out)
}

// A value of one byte.
fn byte_line(kind: u8, w: u64, out: &mut [u8]) -> usize
    ensures { Lined (line_of (0xb0 ∷ kind ∷ word_bytes 1 w [])) result out.old out.new }
{
    let bytes = [0xb0, kind, low(w)];
    line(&bytes, out)
}

// A value of 8 bytes.
fn word_line(kind: u8, w: u64, out: &mut [u8]) -> usize
    ensures { Lined (line_of (0xb0 ∷ kind ∷ word_bytes 8 w [])) result out.old out.new }
{
    let w1 = w / 256;
    let w2 = w1 / 256;
    let w3 = w2 / 256;
    let w4 = w3 / 256;
    let w5 = w4 / 256;
    let w6 = w5 / 256;
    let w7 = w6 / 256;
    let bytes = [
        0xb0,
        kind,
        low(w7),
        low(w6),
        low(w5),
        low(w4),
        low(w3),
        low(w2),
        low(w1),
        low(w),
    ];
    line(&bytes, out)
}

// The `b0` line of a value; `text` is what a string says, `prototype` what a function's entry does.
pub(crate) fn value_line(kind: u8, word: u64, text: &[u8], prototype: u64, out: &mut [u8]) -> usize
    ensures { Lined (line_of (value_bytes kind word text.now prototype)) result out.old out.new }
{
    if kind == 4 {
        let head = [0xb0, 4];
        return writer::write_line(&head, text, out);
    }
    if kind == 5 {
        return byte_line(5, prototype, out);
    }
    if kind == 0 {
        let bytes = [0xb0, 0];
        return line(&bytes, out);
    }
    if kind == 1 {
        return byte_line(1, word, out);
    }
    word_line(kind, word, out)
}
