// A frame's line, put into the output from a place on: its kind, what it says, and LF. Each answers the place after it.
ghost use Rattle.std.specs.Prelude.{[], ◌∷◌};
ghost use Rattle.image.specs.Frames.{opens, const, str, code, ends, desc};
ghost use Rattle.image.specs.Write.{written};
ghost use Rattle.writer.specs.Putting.{Room, Put};

use crate::hex;

pub(crate) fn put_lf(out: &mut [u8], at: usize) -> usize
    requires { Room out.old at (10 ∷ []) }
    ensures { Put out.old at (10 ∷ []) result out.new }
{
    slices::put(out, at, 0, 10);
    at + 1
}

// A prototype's first line: registers and parameters.
pub(crate) fn put_open(out: &mut [u8], at: usize, r: u8, p: u8) -> usize
    requires { Room out.old at (written (opens r p ∷ [])) }
    ensures { Put out.old at (written (opens r p ∷ [])) result out.new }
{
    let t = hex::put_hex(out, at, 0xa0);
    let u = hex::put_hex(out, t, r);
    let v = hex::put_hex(out, u, p);
    put_lf(out, v)
}

// A constant that is no string.
pub(crate) fn put_const(out: &mut [u8], at: usize, tag: u8, w: u64) -> usize
    requires { Room out.old at (written (const tag w ∷ [])) }
    ensures { Put out.old at (written (const tag w ∷ [])) result out.new }
{
    let t = hex::put_hex(out, at, 0xb0);
    let u = hex::put_hex(out, t, tag);
    let v = hex::put_number(out, u, image::payload_of(tag), w);
    put_lf(out, v)
}

// A string.
pub(crate) fn put_string(out: &mut [u8], at: usize, s: &[u8]) -> usize
    requires { Room out.old at (written (str s.now ∷ [])) }
    ensures { Put out.old at (written (str s.now ∷ [])) result out.new }
{
    let t = hex::put_hex(out, at, 0xb0);
    let u = hex::put_hex(out, t, 4);
    let v = hex::put_text(out, u, s);
    put_lf(out, v)
}

// An instruction: operation, flags, a, b, c.
pub(crate) fn put_code(out: &mut [u8], at: usize, w: u64) -> usize
    requires { Room out.old at (written (code w ∷ [])) }
    ensures { Put out.old at (written (code w ∷ [])) result out.new }
{
    let t = hex::put_hex(out, at, 0xc0);
    let u = hex::put_hex(out, t, image::operation_of(w));
    let v = hex::put_hex(out, u, image::flags_of(w));
    let x = hex::put_hex(out, v, image::a_of(w));
    let y = hex::put_hex(out, x, image::b_of(w));
    let z = hex::put_hex(out, y, image::c_of(w));
    put_lf(out, z)
}

// The last line: the number of prototypes.
pub(crate) fn put_end(out: &mut [u8], at: usize, n: u8) -> usize
    requires { Room out.old at (written (ends n ∷ [])) }
    ensures { Put out.old at (written (ends n ∷ [])) result out.new }
{
    let t = hex::put_hex(out, at, 0xe0);
    let u = hex::put_hex(out, t, n);
    put_lf(out, u)
}

// A descriptor: its kind and its number.
pub(crate) fn put_desc(out: &mut [u8], at: usize, kind: u8, n: u8) -> usize
    requires { Room out.old at (written (desc kind n ∷ [])) }
    ensures { Put out.old at (written (desc kind n ∷ [])) result out.new }
{
    let t = hex::put_hex(out, at, 0xd1);
    let u = hex::put_hex(out, t, kind);
    let v = hex::put_hex(out, u, n);
    put_lf(out, v)
}
