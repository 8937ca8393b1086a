// Lines, and the frame that a line says.
ghost use Rattle.std.specs.Prelude.{◌≡◌, ◌+◌, ◌<◌, ◌≤◌, true, length, drop};
ghost use Rattle.image.specs.Hex.{paired, bytes_of};
ghost use Rattle.image.specs.Lines.{line_len};
ghost use Rattle.image.specs.Frames.{shape, open_bytes, word_bytes_of, const_bytes, code_bytes, end_bytes, desc_bytes, kind_bytes, frame_of};
ghost use Rattle.reader.specs.Steps.{Advance};

use crate::hex;
use image::{Frame, ReadError};

// Where the first LF at or after `at` stands; the length where there is none.
fn find_lf(s: &[u8], at: usize) -> usize
    requires { at ≤ length s.now }
    ensures { result ≡ at + line_len (drop at s.now) }
{
    let mut i = at;
    while i < s.len() {
        if s[i] == b'\n' {
            return i;
        }
        i = i + 1;
    }
    i
}

// a0, registers, parameters.
fn open_frame(s: &[u8]) -> Frame
    requires { paired s.now ≡ true }
    ensures { result ≡ shape (open_bytes (bytes_of s.now)) }
{
    if s.len() == 6 {
        let r = hex::byte_at(s, 1);
        let p = hex::byte_at(s, 2);
        if 1 <= r {
            if p <= r {
                return Frame::Open(r, p);
            }
        }
        return Frame::Bad(ReadError::BadFrame);
    }
    Frame::Bad(ReadError::BadFrame)
}

// b0, a tag below 4, its word.
fn word_frame(s: &[u8], tag: u8) -> Frame
    requires { (paired s.now ≡ true) × (4 ≤ length s.now) }
    ensures { result ≡ shape (word_bytes_of tag (drop 2 (bytes_of s.now))) }
{
    let n = image::payload_of(tag);
    if s.len() == 4 + 2 * n {
        let w = hex::word_at(s, 2, n);
        if w <= image::most_of(tag) {
            return Frame::Const(tag, w);
        }
        return Frame::Bad(ReadError::BadFrame);
    }
    Frame::Bad(ReadError::BadFrame)
}

// b0, tag, payload.
fn const_frame(s: &[u8]) -> Frame
    requires { paired s.now ≡ true }
    ensures { result ≡ shape (const_bytes (bytes_of s.now)) }
{
    if s.len() < 4 {
        return Frame::Bad(ReadError::BadFrame);
    }
    let tag = hex::byte_at(s, 1);
    if tag < 4 {
        return word_frame(s, tag);
    }
    if tag == 4 {
        if s.len() <= 132 {
            return Frame::Str(s.len() / 2 - 2);
        }
        return Frame::Bad(ReadError::BadFrame);
    }
    Frame::Bad(ReadError::BadFrame)
}

// c0, operation, flags, a, b, c.
fn code_frame(s: &[u8]) -> Frame
    requires { paired s.now ≡ true }
    ensures { result ≡ shape (code_bytes (bytes_of s.now)) }
{
    if s.len() == 12 {
        let operation = hex::byte_at(s, 1);
        let flags = hex::byte_at(s, 2);
        let a = hex::byte_at(s, 3);
        let b = hex::byte_at(s, 4);
        let c = hex::byte_at(s, 5);
        return Frame::Code(image::pack(operation, flags, a, b, c));
    }
    Frame::Bad(ReadError::BadFrame)
}

// e0, number of prototypes.
fn end_frame(s: &[u8]) -> Frame
    requires { paired s.now ≡ true }
    ensures { result ≡ shape (end_bytes (bytes_of s.now)) }
{
    if s.len() == 4 {
        return Frame::End(hex::byte_at(s, 1));
    }
    Frame::Bad(ReadError::BadFrame)
}

// d1, kind (0 or 1), number.
fn desc_frame(s: &[u8]) -> Frame
    requires { paired s.now ≡ true }
    ensures { result ≡ shape (desc_bytes (bytes_of s.now)) }
{
    if s.len() == 6 {
        let k = hex::byte_at(s, 1);
        let n = hex::byte_at(s, 2);
        if k <= 1 {
            return Frame::Desc(k, n);
        }
        return Frame::Bad(ReadError::BadFrame);
    }
    Frame::Bad(ReadError::BadFrame)
}

// "The first byte is the kind."
fn kind_frame(s: &[u8]) -> Frame
    requires { (paired s.now ≡ true) × (2 ≤ length s.now) }
    ensures { result ≡ shape (kind_bytes (bytes_of s.now)) }
{
    let k = hex::byte_at(s, 0);
    if k == 0xa0 {
        return open_frame(s);
    }
    if k == 0xb0 {
        return const_frame(s);
    }
    if k == 0xc0 {
        return code_frame(s);
    }
    if k == 0xe0 {
        return end_frame(s);
    }
    if k == 0xd1 {
        return desc_frame(s);
    }
    Frame::Bad(ReadError::BadFrame)
}

// A line's text: by 1, then by 2.
fn frame_of(s: &[u8]) -> Frame
    ensures { result ≡ shape (frame_of s.now) }
{
    if s.len() < 1 {
        return Frame::Bad(ReadError::BrokenLine);
    }
    let ok = hex::is_paired(s);
    if !ok {
        return Frame::Bad(ReadError::BrokenLine);
    }
    kind_frame(s)
}

// A line's frame, where its text ends (at its LF, or with the image), and where the next line starts.
#[derive(Clone, Copy)]
pub(crate) struct Next {
    pub(crate) frame: Frame,
    pub(crate) end: usize,
    pub(crate) next: usize,
}

// The line that starts at `at`; one that lacks its LF is Bad.
pub(crate) fn next_frame(s: &[u8], at: usize) -> Next
    requires { at < length s.now }
    ensures { Advance s.now at result }
{
    let e = find_lf(s, at);
    if s.len() <= e {
        return Next {
            frame: Frame::Bad(ReadError::BrokenLine),
            end: e,
            next: s.len(),
        };
    }
    let f = frame_of(&s[at..e]);
    Next {
        frame: f,
        end: e,
        next: e + 1,
    }
}
