// The rules for one instruction, a shape at a time. A rule's tests are joined by `&`: a decoder has no branch. Shapes that
// differ in a line have a decoder each: one for several would take as many parameters as it has lines.
#![tactic(auto, using(crate::proofs::Places::placed), unfolding(crate::specs::Rules::carried, crate::specs::Rules::tidy, crate::specs::Rules::registers_in, crate::specs::Rules::constants_in, crate::specs::Rules::targets_in, crate::specs::Rules::all_inside, crate::specs::Operations::next_of, crate::specs::Rules::prototype_in_image, crate::specs::Rules::upvalues_in, crate::specs::Rules::broken_as, crate::specs::Rules::lowest, crate::specs::Steps::judged))]

ghost use Rattle.std.specs.Prelude.{◌≡◌, ◌+◌, true, eqb, cond};
ghost use Rattle.image.specs.Instruction.{a_of, b_of, c_of};
ghost use Rattle.checker.specs.Operations.{copies, loads_constant, loads_bool, loads_nil, calls, returns, jumps, tests, tests_and_sets, closes, prepares, loops, compares, combines, gets_up_value, sets_up_value, bc_of};
ghost use Rattle.checker.specs.Rules.{lowest};
ghost use Rattle.checker.specs.Decode.{left_operand, right_operand, place_of, jump_of};
ghost use Rattle.checker.specs.Steps.{judged, decode_as};

use crate::{Binary, Compare, Instruction, Site, Unary, next, operands};

// Which of the rules an instruction keeps: 10 to 16, in this order.
#[derive(Clone, Copy)]
struct Kept {
    carried: bool,
    tidy: bool,
    registers: bool,
    constants: bool,
    targets: bool,
    prototype: bool,
    upvalues: bool,
}

impl Kept {
    // What a shape keeps where it says nothing else.
    fn at(s: Site) -> Kept
        ensures { result ≡ record { carried = true; tidy = true; registers = true; constants = true; targets = true; prototype = true; upvalues = s.bare } }
    {
        Kept {
            carried: true,
            tidy: true,
            registers: true,
            constants: true,
            targets: true,
            prototype: true,
            upvalues: s.bare,
        }
    }

    // The lowest rule that is not kept, or the instruction.
    fn judge(self, i: Instruction) -> Instruction
        ensures { result ≡ judged (lowest self.carried self.tidy self.registers self.constants self.targets self.prototype self.upvalues) i }
    {
        if !self.carried {
            Instruction::Bad(10)
        } else if !self.tidy {
            Instruction::Bad(11)
        } else if !self.registers {
            Instruction::Bad(12)
        } else if !self.constants {
            Instruction::Bad(13)
        } else if !self.targets {
            Instruction::Bad(14)
        } else if !self.prototype {
            Instruction::Bad(15)
        } else if !self.upvalues {
            Instruction::Bad(16)
        } else {
            i
        }
    }
}

pub(crate) fn decode_copies(u: Unary, s: Site) -> Instruction
    ensures { result ≡ decode_as copies s (Instruction.Unary u (a_of s.word) (b_of s.word)) }
{
    let l = s.limits;
    let x = operands::bytes_of(s.word);
    let targets = next::next_inside(s);
    let tidy = (x.flags == 0) & (x.c == 0);
    let registers = (x.a < l.registers) & (x.b < l.registers);
    let kept = Kept {
        tidy,
        registers,
        targets,
        ..Kept::at(s)
    };
    kept.judge(Instruction::Unary(u, x.a, x.b))
}

pub(crate) fn decode_load_constant(s: Site) -> Instruction
    ensures { result ≡ decode_as loads_constant s (Instruction.LoadConstant (a_of s.word) (bc_of s.word)) }
{
    let l = s.limits;
    let x = operands::bytes_of(s.word);
    let bc = operands::bc_of(s.word);
    let targets = next::next_inside(s);
    let kept = Kept {
        tidy: x.flags == 0,
        registers: x.a < l.registers,
        constants: bc < l.constants,
        targets,
        ..Kept::at(s)
    };
    kept.judge(Instruction::LoadConstant(x.a, bc))
}

pub(crate) fn decode_load_bool(s: Site) -> Instruction
    ensures { result ≡ decode_as loads_bool s (Instruction.LoadBool (a_of s.word) (eqb (b_of s.word) 1) (cond (eqb (c_of s.word) 0) (s.place + 1) (s.place + 2))) }
{
    let l = s.limits;
    let x = operands::bytes_of(s.word);
    let next = next::next_or_skip(s, x.c == 0);
    let tidy = (x.flags == 0) & (x.b <= 1) & (x.c <= 1);
    let kept = Kept {
        tidy,
        registers: x.a < l.registers,
        targets: next.is_some(),
        ..Kept::at(s)
    };
    kept.judge(Instruction::LoadBool(x.a, x.b == 1, next.unwrap_or(0)))
}

pub(crate) fn decode_load_nil(s: Site) -> Instruction
    ensures { result ≡ decode_as loads_nil s (Instruction.LoadNil (a_of s.word) (b_of s.word)) }
{
    let l = s.limits;
    let x = operands::bytes_of(s.word);
    let targets = next::next_inside(s);
    let tidy = (x.flags == 0) & (x.c == 0);
    let kept = Kept {
        tidy,
        registers: x.a + x.b <= l.registers,
        targets,
        ..Kept::at(s)
    };
    kept.judge(Instruction::LoadNil(x.a, x.b))
}

pub(crate) fn decode_call(s: Site) -> Instruction
    ensures { result ≡ decode_as calls s (Instruction.Call (a_of s.word) (b_of s.word) (c_of s.word)) }
{
    let l = s.limits;
    let x = operands::bytes_of(s.word);
    let targets = next::next_inside(s);
    let carried = (x.b != 255) & (x.c != 255);
    let registers = (x.a + 1 + x.b <= l.registers) & (x.a + x.c <= l.registers);
    let kept = Kept {
        carried,
        tidy: x.flags == 0,
        registers,
        targets,
        ..Kept::at(s)
    };
    kept.judge(Instruction::Call(x.a, x.b, x.c))
}

pub(crate) fn decode_return(s: Site) -> Instruction
    ensures { result ≡ decode_as returns s (Instruction.Return (a_of s.word) (b_of s.word)) }
{
    let l = s.limits;
    let x = operands::bytes_of(s.word);
    let tidy = (x.flags == 0) & (x.c == 0);
    let kept = Kept {
        carried: x.b != 255,
        tidy,
        registers: x.a + x.b <= l.registers,
        ..Kept::at(s)
    };
    kept.judge(Instruction::Return(x.a, x.b))
}

// A close register of 255 is none.
#[tactic(auto, unfolding(crate::specs::Decode::jump_of))]
fn jump_or_close(close: usize, target: usize) -> Instruction
    ensures { result ≡ jump_of close target }
{
    if close == 255 {
        Instruction::Jump(target)
    } else {
        Instruction::Close(close, target)
    }
}

pub(crate) fn decode_jump(s: Site) -> Instruction
    ensures { result ≡ decode_as jumps s (jump_of (a_of s.word) (place_of s.place s.word)) }
{
    let l = s.limits;
    let x = operands::bytes_of(s.word);
    let to = next::target_of(s);
    let registers = (x.a == 255) | (x.a < l.registers);
    let i = jump_or_close(x.a, to.unwrap_or(0));
    let kept = Kept {
        tidy: x.flags == 0,
        registers,
        targets: to.is_some(),
        ..Kept::at(s)
    };
    kept.judge(i)
}

pub(crate) fn decode_test(s: Site) -> Instruction
    ensures { result ≡ decode_as tests s (Instruction.Test (a_of s.word) (eqb (b_of s.word) 1)) }
{
    let l = s.limits;
    let x = operands::bytes_of(s.word);
    let targets = next::skip_inside(s);
    let tidy = (x.flags == 0) & (x.b <= 1) & (x.c == 0);
    let kept = Kept {
        tidy,
        registers: x.a < l.registers,
        targets,
        ..Kept::at(s)
    };
    kept.judge(Instruction::Test(x.a, x.b == 1))
}

pub(crate) fn decode_test_set(s: Site) -> Instruction
    ensures { result ≡ decode_as tests_and_sets s (Instruction.TestSet (a_of s.word) (b_of s.word) (eqb (c_of s.word) 1)) }
{
    let l = s.limits;
    let x = operands::bytes_of(s.word);
    let targets = next::skip_inside(s);
    let tidy = (x.flags == 0) & (x.c <= 1);
    let registers = (x.a < l.registers) & (x.b < l.registers);
    let kept = Kept {
        tidy,
        registers,
        targets,
        ..Kept::at(s)
    };
    kept.judge(Instruction::TestSet(x.a, x.b, x.c == 1))
}

pub(crate) fn decode_closure(s: Site) -> Instruction
    ensures { result ≡ decode_as closes s (Instruction.Closure (a_of s.word) (b_of s.word)) }
{
    let l = s.limits;
    let x = operands::bytes_of(s.word);
    let targets = next::next_inside(s);
    let tidy = (x.flags == 0) & (x.c == 0);
    let kept = Kept {
        tidy,
        registers: x.a < l.registers,
        targets,
        prototype: x.b < l.prototypes,
        upvalues: s.captures & s.bare,
        ..Kept::at(s)
    };
    kept.judge(Instruction::Closure(x.a, x.b))
}

pub(crate) fn decode_prep(s: Site) -> Instruction
    ensures { result ≡ decode_as prepares s (Instruction.NumericForPrep (a_of s.word) (place_of s.place s.word)) }
{
    let l = s.limits;
    let x = operands::bytes_of(s.word);
    let to = next::target_of(s);
    let kept = Kept {
        tidy: x.flags == 0,
        registers: x.a + 2 < l.registers,
        targets: to.is_some(),
        ..Kept::at(s)
    };
    kept.judge(Instruction::NumericForPrep(x.a, to.unwrap_or(0)))
}

pub(crate) fn decode_loop(s: Site) -> Instruction
    ensures { result ≡ decode_as loops s (Instruction.NumericForLoop (a_of s.word) (place_of s.place s.word)) }
{
    let l = s.limits;
    let x = operands::bytes_of(s.word);
    let next = next::ahead(s.place, 1, l.instructions);
    let to = next::target_of(s);
    let kept = Kept {
        tidy: x.flags == 0,
        registers: x.a + 3 < l.registers,
        targets: next.is_some() & to.is_some(),
        ..Kept::at(s)
    };
    kept.judge(Instruction::NumericForLoop(x.a, to.unwrap_or(0)))
}

pub(crate) fn decode_compares(o: Compare, s: Site) -> Instruction
    ensures { result ≡ decode_as compares s (Instruction.Compare o (eqb (a_of s.word) 1) (left_operand s.word) (right_operand s.word)) }
{
    let x = operands::bytes_of(s.word);
    let targets = next::skip_inside(s);
    let tidy = (x.flags <= 3) & (x.a <= 1);
    let i = Instruction::Compare(
        o,
        x.a == 1,
        operands::left_of(s.word),
        operands::right_of(s.word),
    );
    let kept = Kept {
        tidy,
        registers: operands::sources_in(s),
        constants: operands::source_constants(s),
        targets,
        ..Kept::at(s)
    };
    kept.judge(i)
}

pub(crate) fn decode_combines(o: Binary, s: Site) -> Instruction
    ensures { result ≡ decode_as combines s (Instruction.Binary o (a_of s.word) (left_operand s.word) (right_operand s.word)) }
{
    let l = s.limits;
    let x = operands::bytes_of(s.word);
    let targets = next::next_inside(s);
    let registers = (x.a < l.registers) & operands::sources_in(s);
    let constants = operands::source_constants(s);
    let i = Instruction::Binary(
        o,
        x.a,
        operands::left_of(s.word),
        operands::right_of(s.word),
    );
    let kept = Kept {
        tidy: x.flags <= 3,
        registers,
        constants,
        targets,
        ..Kept::at(s)
    };
    kept.judge(i)
}

pub(crate) fn decode_get_up_value(s: Site) -> Instruction
    ensures { result ≡ decode_as gets_up_value s (Instruction.GetUpValue (a_of s.word) (b_of s.word)) }
{
    let l = s.limits;
    let x = operands::bytes_of(s.word);
    let targets = next::next_inside(s);
    let tidy = (x.flags == 0) & (x.c == 0);
    let upvalues = (x.b < l.upvalues) & s.bare;
    let kept = Kept {
        tidy,
        registers: x.a < l.registers,
        targets,
        upvalues,
        ..Kept::at(s)
    };
    kept.judge(Instruction::GetUpValue(x.a, x.b))
}

pub(crate) fn decode_set_up_value(s: Site) -> Instruction
    ensures { result ≡ decode_as sets_up_value s (Instruction.SetUpValue (a_of s.word) (b_of s.word)) }
{
    let l = s.limits;
    let x = operands::bytes_of(s.word);
    let targets = next::next_inside(s);
    let tidy = (x.flags == 0) & (x.c == 0);
    let upvalues = (x.a < l.upvalues) & s.bare;
    let kept = Kept {
        tidy,
        registers: x.b < l.registers,
        targets,
        upvalues,
        ..Kept::at(s)
    };
    kept.judge(Instruction::SetUpValue(x.a, x.b))
}
