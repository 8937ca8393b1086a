// The checker: the rules 10 to 16 for one instruction, which `decode` tests as it works the operands out, and the
// search over all instructions of all prototypes. The machine decodes by the same function, so what the checker
// accepts is what the machine can carry out.
#![tactic(auto)]

mod next;
mod operands;
mod rules;

ghost use Rattle.std.specs.Prelude.{◌≡◌, ◌+◌, ◌-◌, ◌≤◌, ◌<◌, length};
ghost use Rattle.choices.specs.Below.{all_below};
ghost use Rattle.storage.specs.Layout.{storage_in};
ghost use Rattle.storage.specs.Fields.{first_instruction, instructions_of, descriptor_of};
ghost use Rattle.checker.specs.Decode.{decode_of, class_of};
ghost use Rattle.checker.specs.Captures.{descriptor_in, captures_in, captures_at, bare_at};
ghost use Rattle.checker.specs.Check.{Checked, limits_of, site_of, checked_at, code_from, search_of, check_of};

// What an instruction may name: registers R, constants K and instructions n of its prototype, the image's prototypes, and
// the upvalues of its prototype, as many as that has descriptors.
#[derive(Clone, Copy)]
pub struct Limits {
    pub registers: usize,
    pub constants: usize,
    pub instructions: usize,
    pub prototypes: usize,
    pub upvalues: usize,
}

// An instruction where it stands: the limits of its prototype, its place there, and its word. A rule that looks at more, as
// another instruction or a descriptor, adds a field here, which `site_of` fills, and no parameter to eighteen functions.
#[derive(Clone, Copy)]
pub struct Site {
    pub limits: Limits,
    pub place: usize,
    pub word: u64,
    // Whether the descriptors of the prototype that a Closure names here are in range.
    pub captures: bool,
    // Not where this is the first instruction of all and its prototype has descriptors.
    pub bare: bool,
}

#[derive(Clone, Copy)]
pub enum Operand {
    Register(usize),
    Constant(usize),
}

#[derive(Clone, Copy)]
pub enum Unary {
    Move,
    Not,
    Minus,
    BitNot,
}

#[derive(Clone, Copy)]
pub enum Compare {
    Eq,
    Less,
    LessEq,
}

#[derive(Clone, Copy)]
pub enum Binary {
    Add,
    Sub,
    Mul,
    Div,
    IDiv,
    Mod,
    BitAnd,
    BitOr,
    BitXor,
    ShiftLeft,
    ShiftRight,
}

// An instruction with its operands worked out; `next` and `target` are places.
#[derive(Clone, Copy)]
pub enum Instruction {
    Unary(Unary, usize, usize),
    LoadConstant(usize, usize),
    LoadBool(usize, bool, usize),
    LoadNil(usize, usize),
    Call(usize, usize, usize),
    Return(usize, usize),
    Jump(usize),
    Test(usize, bool),
    TestSet(usize, usize, bool),
    Closure(usize, usize),
    NumericForPrep(usize, usize),
    NumericForLoop(usize, usize),
    Compare(Compare, bool, Operand, Operand),
    Binary(Binary, usize, Operand, Operand),
    // The lowest rule that it breaks.
    Bad(u8),
    GetUpValue(usize, usize),
    SetUpValue(usize, usize),
    // A Jump with a close register: this one and all above it, then the target.
    Close(usize, usize),
}

// What an instruction is to the activations around it: only a Call lets a caller wait, only a Return ends a machine.
#[derive(Clone, Copy)]
pub enum Class {
    // A Call: its function's register, where the returned values go, and how many it asks for.
    Calls(usize, usize),
    // A Return: the first register that it hands down, and how many.
    Returns(usize, usize),
    Other,
}

// Where an image is refused, and by what: the number, the prototype and the instruction.
#[derive(Clone, Copy, Debug, PartialEq, Eq)]
pub struct Refusal {
    pub number: u8,
    pub prototype: usize,
    pub instruction: usize,
}

impl Refusal {
    fn at(number: u8, prototype: usize, instruction: usize) -> Refusal
        ensures { result ≡ record { number = number; prototype = prototype; instruction = instruction } }
    {
        Refusal {
            number,
            prototype,
            instruction,
        }
    }
}

// The instruction with its operands worked out, or refused.
#[tactic(auto, unfolding(crate::specs::Operations::shape_of, crate::specs::Decode::decode_of, crate::specs::Decode::operands_of, crate::specs::Decode::unary_of, crate::specs::Decode::compare_of, crate::specs::Decode::binary_of, crate::specs::Rules::broken_of, crate::specs::Steps::judged))]
pub fn decode(s: Site) -> Instruction
    ensures { result ≡ decode_of s }
{
    match image::operation_of(s.word) {
        0 => rules::decode_copies(Unary::Move, s),
        1 => rules::decode_load_constant(s),
        2 => rules::decode_load_bool(s),
        3 => rules::decode_load_nil(s),
        10 => rules::decode_call(s),
        12 => rules::decode_return(s),
        14 => rules::decode_jump(s),
        15 => rules::decode_test(s),
        16 => rules::decode_test_set(s),
        17 => rules::decode_closure(s),
        18 => rules::decode_prep(s),
        19 => rules::decode_loop(s),
        27 => rules::decode_compares(Compare::Eq, s),
        28 => rules::decode_compares(Compare::Less, s),
        29 => rules::decode_compares(Compare::LessEq, s),
        30 => rules::decode_copies(Unary::Not, s),
        31 => rules::decode_copies(Unary::Minus, s),
        32 => rules::decode_copies(Unary::BitNot, s),
        33 => rules::decode_combines(Binary::Add, s),
        34 => rules::decode_combines(Binary::Sub, s),
        35 => rules::decode_combines(Binary::Mul, s),
        36 => rules::decode_combines(Binary::Div, s),
        37 => rules::decode_combines(Binary::IDiv, s),
        38 => rules::decode_combines(Binary::Mod, s),
        40 => rules::decode_combines(Binary::BitAnd, s),
        41 => rules::decode_combines(Binary::BitOr, s),
        42 => rules::decode_combines(Binary::BitXor, s),
        43 => rules::decode_combines(Binary::ShiftLeft, s),
        44 => rules::decode_combines(Binary::ShiftRight, s),
        24 => rules::decode_get_up_value(s),
        25 => rules::decode_set_up_value(s),
        _ => Instruction::Bad(10),
    }
}

pub fn class_of(i: Instruction) -> Class
    ensures { result ≡ class_of i }
{
    match i {
        Instruction::Call(function, _, returns) => Class::Calls(function, returns),
        Instruction::Return(start, n) => Class::Returns(start, n),
        _ => Class::Other,
    }
}

// ---- the search

// What the instructions of prototype q may name.
fn limits_of(table: &[u64], q: usize) -> Limits
    ensures { result ≡ limits_of table.now q }
{
    Limits {
        registers: storage::registers(table, q),
        constants: storage::constants(table, q),
        instructions: storage::instructions(table, q),
        prototypes: storage::prototypes(table),
        upvalues: storage::descriptors(table, q),
    }
}

// Whether a descriptor is in range of prototype q: a register of it, or one of its upvalues.
#[tactic(auto, unfolding(crate::specs::Captures::descriptor_in))]
fn descriptor_in(table: &[u64], q: usize, d: usize) -> bool
    ensures { result ≡ descriptor_in table.now q d }
{
    if d < 256 {
        d < storage::registers(table, q)
    } else {
        d - 256 < storage::descriptors(table, q)
    }
}

// The first n descriptors of the prototype that prototype q names.
fn all_in(table: &[u64], q: usize, named: usize, n: usize) -> bool
    ensures { result ≡ all_below (λ i. descriptor_in table.now q (descriptor_of table.now named i)) n }
{
    (0..n).all(|i| descriptor_in(table, q, storage::descriptor(table, named, i)))
}

// No more than 8 are looked at, whatever the table says: a machine asks at every Closure.
#[tactic(auto, unfolding(crate::specs::Captures::captures_in))]
fn captures_in(table: &[u64], q: usize, named: usize) -> bool
    ensures { result ≡ captures_in table.now q named }
{
    let n = storage::descriptors(table, named);
    n <= 8 && all_in(table, q, named, n)
}

// What only a Closure has looked at: every other instruction costs one test.
#[tactic(auto, unfolding(crate::specs::Captures::captures_at))]
fn captures_at(table: &[u64], q: usize, w: u64) -> bool
    ensures { result ≡ captures_at table.now q w }
{
    image::operation_of(w) != 17 || captures_in(table, q, usize::from(image::b_of(w)))
}

// Prototype 0 has no descriptors, which is asked at its instruction 0 alone.
#[tactic(auto, unfolding(crate::specs::Captures::bare_at))]
fn bare_at(table: &[u64], q: usize, p: usize) -> bool
    ensures { result ≡ bare_at table.now q p }
{
    q != 0 || p != 0 || storage::descriptors(table, 0) == 0
}

// Instruction p of prototype q.
pub fn site_of(table: &[u64], code: &[u64], q: usize, p: usize) -> Site
    ensures { result ≡ site_of table.now code.now q p }
{
    let l = limits_of(table, q);
    let w = storage::instruction(table, code, q, p);
    Site {
        limits: l,
        place: p,
        word: w,
        captures: captures_at(table, q, w),
        bare: bare_at(table, q, p),
    }
}

// What is said of instruction i of prototype q alone.
fn check_at(table: &[u64], code: &[u64], q: usize, i: usize) -> Result<(), Refusal>
    ensures { result ≡ checked_at table.now code.now q i }
{
    match decode(site_of(table, code, q, i)) {
        Instruction::Bad(number) => Err(Refusal::at(number, q, i)),
        _ => Ok(()),
    }
}

// What is refused from instruction i on, where `code` has ended: each word there is 0, a Move of register 0 to itself.
// So the first one breaks a rule, or the last one does, which none follows.
fn past_code(table: &[u64], code: &[u64], q: usize, i: usize) -> Result<(), Refusal>
    requires code_len_bound { length code.now ≤ first_instruction table.now q + i }
    requires i_bound { i < instructions_of table.now q }
    ensures { (rest : Checked) → code_from table.now code.now q (instructions_of table.now q - i) i rest ≡ result }
{
    check_at(table, code, q, i)?;
    Err(Refusal::at(14, q, storage::instructions(table, q) - 1))
}

// The rules alone, of contents that are known to be an image's: "stops at the first bad one, out of both". On any other
// it takes, for each entry of the table, no more turns than there are words in `code`: past the table's end a prototype has
// no instructions, and past the code's end none is looked at but the first. It is left by its label with the refusal's
// place, as document 01 wants.
pub fn search(table: &[u64], code: &[u64]) -> Result<(), Refusal>
    ensures { result ≡ search_of table.now code.now }
{
    let prototypes = storage::prototypes(table);
    if prototypes == 0 {
        return Err(Refusal::at(15, 0, 0));
    }
    'search: {
        for q in 0..prototypes {
            let instructions = storage::instructions(table, q);
            if instructions == 0 {
                break 'search Err(Refusal::at(14, q, 0));
            }
            let first = storage::first_instruction(table, q);
            let inside = slices::room(code.len(), first, instructions);
            for i in 0..inside {
                if let Err(refusal) = check_at(table, code, q, i) {
                    break 'search Err(refusal);
                }
            }
            if inside < instructions {
                break 'search past_code(table, code, q, inside);
            }
        }
        Ok(())
    }
}

#[tactic(auto, unfolding(crate::specs::Check::check_of, storage::specs::Stored::valid_of))]
pub fn check(
    table: &[u64],
    code: &[u64],
    const_kinds: &[u8],
    const_words: &[u64],
    texts: &[u8],
) -> Result<(), Refusal>
    ensures { result ≡ check_of (storage_in table code const_kinds const_words texts) }
{
    if !storage::is_long_enough(table, code, const_kinds, const_words, texts) {
        return Err(Refusal::at(5, 0, 0));
    }
    if storage::valid(table, code, const_kinds, const_words, texts).is_none() {
        return Err(Refusal::at(6, 0, 0));
    }
    search(table, code)
}
