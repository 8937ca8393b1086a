// What reader, writer and storage share of the image: a frame as a value, the counting of frames in order, and an
// instruction's five bytes as one number. The format itself is defined in specs/.
#![tactic(auto)]

ghost use Rattle.std.specs.Prelude.{◌≡◌};
ghost use Rattle.image.specs.Instruction.{packed, operation_of, flags_of, a_of, b_of, c_of};
ghost use Rattle.image.specs.Judge.{read_number, const_step, code_step, desc_step, frame_step};
ghost use Rattle.image.specs.Frames.{payload, most_of};

// What an image is refused for.
#[derive(Clone, Copy, Debug, PartialEq, Eq)]
pub enum ReadError {
    // A line is empty, is no lowercase hexadecimal digits in pairs, or lacks its LF.
    BrokenLine,
    // A line says nothing that a frame can say, or a frame that may not stand there.
    BadFrame,
    // A limit is passed.
    PastLimit,
    // There is no last frame, or a byte after it.
    WrongEnd,
    // The lent slices are too short.
    ShortStorage,
    // Another number. No image is refused for one; a frame that was not read from an image may be bad for one: `storage` gives
    // 6 for a place that holds no frame.
    Other(u8),
}

impl ReadError {
    // The documents' number.
    pub fn number(self) -> u8
        ensures { result ≡ read_number self }
    {
        match self {
            ReadError::BrokenLine => 1,
            ReadError::BadFrame => 2,
            ReadError::PastLimit => 3,
            ReadError::WrongEnd => 4,
            ReadError::ShortStorage => 5,
            ReadError::Other(n) => n,
        }
    }
}

// An image is refused: for what, and at which line.
#[derive(Clone, Copy, Debug, PartialEq, Eq)]
pub struct ReadRefusal {
    pub error: ReadError,
    pub line: usize,
}

// A line's frame. A string's bytes stay in the line; a frame that is none is Bad.
#[derive(Clone, Copy)]
pub enum Frame {
    // Registers, parameters.
    Open(u8, u8),
    // A constant that is no string: its tag and its word.
    Const(u8, u64),
    // A string: its length.
    Str(usize),
    // An instruction.
    Code(u64),
    // The number of prototypes.
    End(u8),
    Bad(ReadError),
    // A descriptor: its kind (0 a register of the parent, 1 an upvalue of it) and its number.
    Desc(u8, u8),
}

// What has been counted: prototypes in all; constants, instructions and descriptors of the last one.
#[derive(Clone, Copy)]
pub struct Counts {
    pub protos: usize,
    pub consts: usize,
    pub codes: usize,
    pub descs: usize,
}

// What one frame more makes of the counts.
#[derive(Clone, Copy)]
pub enum Step {
    On(Counts),
    Done,
    No(ReadError),
}

fn const_step(st: Counts) -> Step
    ensures { result ≡ const_step st }
{
    let p = st.protos;
    let c = st.consts;
    let k = st.codes;
    let d = st.descs;
    if p < 1 {
        return Step::No(ReadError::BadFrame);
    }
    if k == 0 {
        if c < 256 {
            return Step::On(Counts {
                protos: p,
                consts: c + 1,
                codes: k,
                descs: d,
            });
        }
        return Step::No(ReadError::PastLimit);
    }
    Step::No(ReadError::BadFrame)
}

fn code_step(st: Counts) -> Step
    ensures { result ≡ code_step st }
{
    let p = st.protos;
    let c = st.consts;
    let k = st.codes;
    let d = st.descs;
    if p < 1 {
        return Step::No(ReadError::BadFrame);
    }
    if k < 4096 {
        return Step::On(Counts {
            protos: p,
            consts: c,
            codes: k + 1,
            descs: d,
        });
    }
    Step::No(ReadError::PastLimit)
}

fn desc_step(st: Counts) -> Step
    ensures { result ≡ desc_step st }
{
    let p = st.protos;
    let c = st.consts;
    let k = st.codes;
    let d = st.descs;
    if p < 1 {
        return Step::No(ReadError::BadFrame);
    }
    if c == 0 {
        if k == 0 {
            if d < 8 {
                return Step::On(Counts {
                    protos: p,
                    consts: c,
                    codes: k,
                    descs: d + 1,
                });
            }
            return Step::No(ReadError::PastLimit);
        }
        return Step::No(ReadError::BadFrame);
    }
    Step::No(ReadError::BadFrame)
}

// One frame more.
pub fn step_on(st: Counts, f: Frame) -> Step
    ensures { result ≡ frame_step st f }
{
    match f {
        Frame::Open(_, _) => {
            let p = st.protos;
            if p < 32 {
                return Step::On(Counts {
                    protos: p + 1,
                    consts: 0,
                    codes: 0,
                    descs: 0,
                });
            }
            Step::No(ReadError::PastLimit)
        }
        Frame::Const(_, _) => const_step(st),
        Frame::Str(_) => const_step(st),
        Frame::Code(_) => code_step(st),
        Frame::End(n) => {
            let p = st.protos;
            if (n as usize) == p {
                return Step::Done;
            }
            Step::No(ReadError::BadFrame)
        }
        Frame::Bad(k) => Step::No(k),
        Frame::Desc(_, _) => desc_step(st),
    }
}

// How many bytes of payload a tag below 4 has.
pub fn payload_of(tag: u8) -> usize
    ensures { result ≡ payload tag }
{
    if tag == 0 {
        return 0;
    }
    if tag == 1 {
        return 1;
    }
    8
}

// The largest word of a tag below 4.
pub fn most_of(tag: u8) -> u64
    ensures { result ≡ most_of tag }
{
    if tag == 0 {
        return 0;
    }
    if tag == 1 {
        return 1;
    }
    u64::MAX
}

// ---- an instruction's five bytes as one number, and back

pub fn pack(operation: u8, flags: u8, a: u8, b: u8, c: u8) -> u64
    ensures { result ≡ packed operation flags a b c }
{
    let o = operation as u64;
    let f = flags as u64;
    (c as u64)
        + (b as u64) * 0x100
        + (a as u64) * 0x1_0000
        + (o * 4 + f % 4) * 0x100_0000
        + f / 4 * 0x4_0000_0000
}

pub fn operation_of(w: u64) -> u8
    ensures { result ≡ operation_of w }
{
    (w / 0x400_0000 % 256) as u8
}

pub fn flags_of(w: u64) -> u8
    ensures { result ≡ flags_of w }
{
    (w / 0x100_0000 % 4 + w / 0x4_0000_0000 % 64 * 4) as u8
}

pub fn a_of(w: u64) -> u8
    ensures { result ≡ a_of w }
{
    (w / 0x1_0000 % 256) as u8
}

pub fn b_of(w: u64) -> u8
    ensures { result ≡ b_of w }
{
    (w / 0x100 % 256) as u8
}

pub fn c_of(w: u64) -> u8
    ensures { result ≡ c_of w }
{
    (w % 256) as u8
}
