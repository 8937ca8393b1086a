// The line reader: a view that holds the caller's image and its place; the work is line's.
ghost use Rattle.std.specs.Prelude.{◌<◌, length};
ghost use Rattle.reader.specs.Steps.{Advance};

use crate::line;
use crate::line::Next;

#[derive(Clone, Copy)]
pub(crate) struct LineReader<'a> {
    pub(crate) image: &'a [u8],
    pub(crate) at: usize,
}

// The view takes itself apart: the frame of the line at its place, and where the next line starts.
pub(crate) fn next<'a>(r: LineReader<'a>) -> Next
    requires { r.at < length r.image.now }
    ensures { Advance r.entry.image.now r.entry.at result }
{
    line::next_frame(r.image, r.at)
}

// For every caller: a view is made over the image at a place, and asked for its frame.
pub(crate) fn frame_at(s: &[u8], at: usize) -> Next
    requires { at < length s.now }
    ensures { Advance s.now at result }
{
    next(LineReader { image: s, at })
}
