// What an instruction says: its bytes as numbers, and its sources, which a flag makes constants.
ghost use Rattle.std.specs.Prelude.{◌≡◌, true, cond, eqb};
ghost use Rattle.checker.specs.Operations.{bc_of};
ghost use Rattle.checker.specs.Rules.{sources_in, source_constants};
ghost use Rattle.checker.specs.Decode.{left_operand, right_operand};
ghost use Rattle.checker.specs.Steps.{BytesOf};

use crate::{Operand, Site};

// Its bytes but the operation.
#[derive(Clone, Copy)]
pub(crate) struct Bytes {
    pub(crate) flags: usize,
    pub(crate) a: usize,
    pub(crate) b: usize,
    pub(crate) c: usize,
}

pub(crate) fn bytes_of(w: u64) -> Bytes
    ensures { BytesOf w result }
{
    Bytes {
        flags: usize::from(image::flags_of(w)),
        a: usize::from(image::a_of(w)),
        b: usize::from(image::b_of(w)),
        c: usize::from(image::c_of(w)),
    }
}

pub(crate) fn bc_of(w: u64) -> usize
    ensures { result ≡ bc_of w }
{
    usize::from(image::b_of(w)) * 256 + usize::from(image::c_of(w))
}

// Whether a flag, 1 or 2, is set.
fn has_flag(flags: usize, flag: usize) -> bool
    ensures { result ≡ cond (eqb flags flag) true (eqb flags 3) }
{
    (flags == flag) | (flags == 3)
}

fn make_operand(is_constant: bool, at: usize) -> Operand
    ensures { result ≡ cond is_constant (Operand.Constant at) (Operand.Register at) }
{
    if is_constant {
        Operand::Constant(at)
    } else {
        Operand::Register(at)
    }
}

#[tactic(auto, unfolding(crate::specs::Decode::left_operand, crate::specs::Operations::left_is_constant))]
pub(crate) fn left_of(w: u64) -> Operand
    ensures { result ≡ left_operand w }
{
    let x = bytes_of(w);
    make_operand(has_flag(x.flags, 1), x.b)
}

#[tactic(auto, unfolding(crate::specs::Decode::right_operand, crate::specs::Operations::right_is_constant))]
pub(crate) fn right_of(w: u64) -> Operand
    ensures { result ≡ right_operand w }
{
    let x = bytes_of(w);
    make_operand(has_flag(x.flags, 2), x.c)
}

// 12 for the sources: registers.
#[tactic(auto, unfolding(crate::specs::Rules::sources_in, crate::specs::Operations::left_is_constant, crate::specs::Operations::right_is_constant))]
pub(crate) fn sources_in(s: Site) -> bool
    ensures { result ≡ sources_in s }
{
    let x = bytes_of(s.word);
    let left = has_flag(x.flags, 1);
    let right = has_flag(x.flags, 2);
    (left | (x.b < s.limits.registers)) & (right | (x.c < s.limits.registers))
}

// 13 for the sources: constants.
#[tactic(auto, unfolding(crate::specs::Rules::source_constants, crate::specs::Operations::left_is_constant, crate::specs::Operations::right_is_constant))]
pub(crate) fn source_constants(s: Site) -> bool
    ensures { result ≡ source_constants s }
{
    let x = bytes_of(s.word);
    let left = has_flag(x.flags, 1);
    let right = has_flag(x.flags, 2);
    (!left | (x.b < s.limits.constants)) & (!right | (x.c < s.limits.constants))
}
