// Writes the answers to document 01's worked examples, a line for each: a value as its kind and its word, a run as its
// number, its count and its place.
#![tactic(auto)]

use constant::{OperatorError, Value};
use std::io;
use step::Outcome;
use worked::Told;

fn write_value(rt: &impl Print, v: Value) -> io::Result<()> {
    print!(rt; "{} {:016x}", constant::kind_of(v), constant::word_of(v))
}

fn write_answer(rt: &impl Print, answer: Result<Value, OperatorError>) -> io::Result<()> {
    match answer {
        Ok(v) => write_value(rt, v),
        Err(e) => rt.print(constant::error_number(e.error)),
    }
}

fn write_whole(rt: &impl Print, whole: Option<i64>) -> io::Result<()> {
    match whole {
        Some(x) => write_value(rt, Value::Integer(x)),
        None => rt.print("none"),
    }
}

fn write_outcome(rt: &impl Print, o: Outcome) -> io::Result<()> {
    print!(rt;
        "{} {} {} {}",
        o.number, o.count, o.prototype, o.instruction
    )
}

fn write_told(rt: &impl Print, t: Told) -> io::Result<()> {
    match t {
        Told::Operator(a) => write_answer(rt, a),
        Told::Number(x) => write_value(rt, Value::Number(x)),
        Told::Equal(b) => write_value(rt, Value::Boolean(b)),
        Told::Integer(w) => write_whole(rt, w),
        Told::Run(o) => write_outcome(rt, o),
        Told::Register(v) => write_value(rt, v),
        Told::Nothing => Ok(()),
    }
}

fn write_line(rt: &impl Print, number: u64, t: Told) -> io::Result<()> {
    print!(rt; "W{number} ")?;
    write_told(rt, t)?;
    rt.println("")
}

fn main(rt: HostRuntime) -> io::Result<()> {
    // From the thirteenth on they are all of W13.
    for n in 0..16 {
        write_line(&rt, (n + 1).min(13), worked::example(n))?;
    }
    Ok(())
}
