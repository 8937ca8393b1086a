// Document 01's worked examples: W1 to W12 by the operators, W13 by the machine. `example` is proved to answer what the
// document says: specs/Worked has the one claim about the one list.
#![tactic(auto)]

ghost use Rattle.std.specs.Prelude.{◌≡◌, get_or};
ghost use Rattle.worked.specs.Thirteen.{ran_on};
ghost use Rattle.worked.specs.Worked.{answers};

use constant::{OperatorError, Value};
use step::Outcome;

// What an example tells: an operator's answer, the number that an integer becomes, whether two values are equal, the
// integer that a number is, a run's answer, what a register holds.
#[derive(Clone, Copy, Debug, PartialEq)]
pub enum Told {
    Operator(Result<Value, OperatorError>),
    Number(f64),
    Equal(bool),
    Integer(Option<i64>),
    Run(Outcome),
    Register(Value),
    Nothing,
}

// What a run of W13's machine tells: its answer, and what registers 0 and 3 hold.
#[derive(Clone, Copy, Debug, PartialEq)]
pub struct Ran {
    pub answer: Outcome,
    pub first: Value,
    pub fourth: Value,
}

// Reads W13's image, starts it without arguments and runs it on a budget.
fn run_thirteen(budget: u32) -> Ran
    ensures { result ≡ ran_on budget }
{
    let mut table = [0u64; storage::TABLE];
    let mut code = [0u64; storage::CODE];
    let mut const_kinds = [0u8; storage::CONSTANTS];
    let mut const_words = [0u64; storage::CONSTANTS];
    let mut texts = [0u8; storage::TEXTS];
    let _ = reader::read(
        b"a00400\nb0020000000000000001\nb0020000000000000003\nc00100000000\nc00100010001\nc00100020000\nc01200000000\nc0130000ffff\nc00c00000000\ne001\n",
        &mut table,
        &mut code,
        &mut const_kinds,
        &mut const_words,
        &mut texts,
    );
    let mut frames = [0u64; state::FRAMES];
    let mut kinds = [0u8; state::REGISTERS];
    let mut words = [0u64; state::REGISTERS];
    let _ = starter::start(
        &table,
        &code,
        &const_kinds,
        &const_words,
        &texts,
        &mut frames,
        &mut kinds,
        &mut words,
        &[],
        &[],
    );
    let answer = vm::run(
        &table,
        &code,
        &const_kinds,
        &const_words,
        &texts,
        &mut frames,
        &mut kinds,
        &mut words,
        budget,
    );
    Ran {
        answer,
        first: constant::value_of(kinds[0], words[0]),
        fourth: constant::value_of(kinds[3], words[3]),
    }
}

// The answer to the example with this place in the list: 0 is W1, and from 12 on are W13's.
pub fn example(n: u64) -> Told
    ensures { result ≡ get_or answers n Told.Nothing }
{
    match n {
        0 => Told::Operator(constant::floor_divide(Value::Integer(-7), Value::Integer(2))),
        1 => Told::Operator(constant::modulo(Value::Integer(7), Value::Integer(-2))),
        2 => Told::Operator(constant::floor_divide(
            Value::Integer(-9223372036854775808),
            Value::Integer(-1),
        )),
        3 => Told::Operator(constant::modulo(
            Value::Integer(-9223372036854775808),
            Value::Integer(-1),
        )),
        4 => Told::Operator(constant::modulo(
            Value::Integer(9223372036854775806),
            Value::Integer(9223372036854775807),
        )),
        5 => Told::Operator(constant::add(Value::Integer(9223372036854775807), Value::Integer(1))),
        6 => Told::Number(number::from_integer(9007199254740993)),
        7 => Told::Equal(comparison::is_equal(
            Value::Integer(9007199254740993),
            Value::Number(9007199254740992.0),
            &[0],
            &[0],
        )),
        8 => Told::Integer(constant::to_integer(Value::Number(9223372036854775808.0))),
        9 => Told::Operator(constant::shift_left(Value::Integer(2), Value::Integer(-1))),
        10 => Told::Operator(constant::shift_right(Value::Integer(-1), Value::Integer(1))),
        11 => Told::Operator(constant::shift_left(Value::Integer(1), Value::Integer(64))),
        12 => Told::Run(run_thirteen(8).answer),
        13 => Told::Run(run_thirteen(9).answer),
        14 => Told::Register(run_thirteen(9).first),
        15 => Told::Register(run_thirteen(9).fourth),
        _ => Told::Nothing,
    }
}
