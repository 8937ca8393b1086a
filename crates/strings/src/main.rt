// Replays strings and operators of document 02, 1/12: what each string reads as goes through the crate `figures`, every
// operator on every pair of operands, strings among them, through the crate `effects`. An error must name the operand
// that it names by 5/12. Of each part of the list it writes how many it compared and how many differ.
// tools/figures/cases.py makes the list and what must be written.
//
// The list comes in pages of 65,536 bytes, whose last lines are empty so that no line stands on two. A line is one of
//   # words                   a part's name, written as it is
//   f3130 i000000000000000a   a string's bytes and what it reads as: `i` or `n` and a word, `e` for neither
//   w                         a list of operands follows, in place of the one before
//   v2 0000000000000001       an operand: its kind and its word
//   s3130                     an operand that is a string, its bytes
//   o21 1e                    an operator: its operation and its error
//   ri000000000000000b1..     its results for the next left operand and the right ones in order, or for the only ones: `i`, `n`, `t`, `f`;
//                             `1` or `2`, the operator's error by the operand that it names; `z`, a zero divisor's
//   .                         the part's end
#![tactic(auto)]

ghost use Rattle.std.specs.Prelude.{◌<◌, ◌≤◌, length, IfOk};

use checker::{Binary, Compare, Instruction, Operand, Unary};
use constant::Value;
use effects::{Effect, Go};
use figures::Figure;
use std::io;

// ---- where things lie

// Operand i is constant FIRST + i of the image, which is constant i of prototype PROTOTYPE, and it is register i of the
// window from BASE on. A string that is only read is constant 0. The bytes of constant n stand from 256 n on.
const PROTOTYPE: usize = 1;

const FIRST: usize = 7;

const BASE: usize = 5;

const DEST: usize = 200;

// ---- results

// `i` or `n` and the word; `t`; `f`; `e`, of an operator with the error's number and the operand that it names. No list
// has the tag 0.
#[derive(Clone, Copy)]
struct Outcome {
    tag: u8,
    word: u64,
    operand: u8,
}

fn unnamed(tag: u8, word: u64) -> Outcome {
    Outcome {
        tag,
        word,
        operand: 0,
    }
}

fn failed(number: u64, operand: u8) -> Outcome {
    Outcome {
        tag: b'e',
        word: number,
        operand,
    }
}

fn none() -> Outcome {
    unnamed(0, 0)
}

fn wide(b: u8) -> u64 {
    b as u64
}

fn of_word(kind: u8, word: u64) -> Outcome {
    if kind == 2 {
        return unnamed(b'i', word);
    }
    if kind == 3 {
        return unnamed(b'n', word);
    }
    none()
}

fn of_value(v: Value) -> Outcome {
    of_word(constant::kind_of(v), constant::word_of(v))
}

fn of_figure(f: Option<Figure>) -> Outcome {
    match f {
        Some(Figure::Integer(x)) => of_value(Value::Integer(x)),
        Some(Figure::Number(x)) => of_value(Value::Number(x)),
        None => unnamed(b'e', 0),
    }
}

// The value that goes to DEST and on to the next instruction.
fn of_set(dest: usize, kind: u8, word: u64, go: Go) -> Outcome {
    if dest != DEST {
        return none();
    }
    match go {
        Go::Next => of_word(kind, word),
        Go::Skip => none(),
        Go::To(_) => none(),
    }
}

// A comparison skips where it holds.
fn of_go(go: Go) -> Outcome {
    match go {
        Go::Next => unnamed(b'f', 0),
        Go::Skip => unnamed(b't', 0),
        Go::To(_) => none(),
    }
}

fn of_effect(e: Effect) -> Outcome {
    match e {
        Effect::Set(dest, kind, word, go) => of_set(dest, kind, word, go),
        Effect::Goto(go) => of_go(go),
        Effect::Fail(n, operand) => failed(wide(n), operand),
        _ => none(),
    }
}

// The number of a zero divisor's error, by that of its operator's own.
fn by_zero(error: u64) -> u64 {
    match error {
        34 => 45,
        35 => 46,
        _ => 0,
    }
}

// The result that stands at a place of a line, where the operator's own error has this number. Of 17 digits the last 16
// count: those behind the tag.
fn expected(line: &[u8], at: usize, error: u64) -> Outcome {
    let tag = slices::get(line, 0, at);
    if (tag == b'i') | (tag == b'n') {
        return unnamed(tag, lists::number_at(line, at, 17));
    }
    match tag {
        b'1' => failed(error, 1),
        b'2' => failed(error, 2),
        b'z' => failed(by_zero(error), 2),
        _ => unnamed(tag, 0),
    }
}

// ---- counts

#[derive(Clone, Copy)]
struct Tally {
    compared: u64,
    different: u64,
}

fn counted(t: Tally, want: Outcome, got: Outcome) -> Tally {
    let compared = std::num::wrapping_add_u64(t.compared, 1);
    let different = t.different;
    if (want.tag == got.tag) & (want.word == got.word) & (want.operand == got.operand) {
        return Tally {
            compared,
            different,
        };
    }
    Tally {
        compared,
        different: std::num::wrapping_add_u64(different, 1),
    }
}

fn sum(s: Tally, t: Tally) -> Tally {
    Tally {
        compared: std::num::wrapping_add_u64(s.compared, t.compared),
        different: std::num::wrapping_add_u64(s.different, t.different),
    }
}

fn report(rt: &impl Print, t: Tally) -> io::Result<()> {
    println!(rt; ": compared {}, different {}", t.compared, t.different)
}

fn finish(rt: &impl Print, t: Tally) -> io::Result<()> {
    if t.different == 0 {
        return println!(rt; "all {} agree", t.compared);
    }
    println!(rt; "{} of {} differ", t.different, t.compared)
}

// ---- a string

// The bytes whose digits follow the first byte of a line become those of constant n. Answers where the digits end.
fn put_text(line: &[u8], const_words: &mut [u64], texts: &mut [u8], n: usize) -> usize {
    let end = lists::find(line, 1, b' ');
    let count = (end - 1) / 2;
    let mut i: usize = 0;
    while i < count {
        let b = (lists::number_at(line, 1 + 2 * i, 2) % 256) as u8;
        slices::put(texts, n << 8, i, b);
        i += 1;
    }
    slices::put(const_words, 0, n, ((n << 24) | count) as u64);
    end
}

// What the string of a line reads as, and what it must.
fn read(line: &[u8], const_words: &mut [u64], texts: &mut [u8], t: Tally) -> Tally {
    let end = put_text(line, const_words, texts, 0);
    let want = expected(line, std::num::wrapping_add_usize(end, 1), 0);
    let got = of_figure(figures::figure_of(const_words, texts, 0));
    counted(t, want, got)
}

// ---- operands

// Operand i of a line, as a constant and in a register.
fn put_operand(
    line: &[u8],
    const_kinds: &mut [u8],
    const_words: &mut [u64],
    texts: &mut [u8],
    kinds: &mut [u8],
    words: &mut [u64],
    i: usize,
) {
    if slices::get(line, 0, 0) == b's' {
        let n = std::num::wrapping_add_usize(FIRST, i);
        put_text(line, const_words, texts, n);
        slices::put(const_kinds, FIRST, i, 4);
        slices::put(kinds, BASE, i, 4);
        slices::put(words, BASE, i, n as u64);
        return;
    }
    let kind = slices::get(line, 0, 1) % 16;
    let word = lists::number_at(line, 3, 16);
    slices::put(const_kinds, FIRST, i, kind);
    slices::put(const_words, FIRST, i, word);
    slices::put(kinds, BASE, i, kind);
    slices::put(words, BASE, i, word);
}

fn operand(i: usize, is_constant: bool) -> Operand {
    if is_constant {
        return Operand::Constant(i);
    }
    Operand::Register(i)
}

// ---- operators

// The operation on operands i and j, or on j. Registers and constants take turns on both sides.
fn instruction_of(operation: u64, i: usize, j: usize) -> Instruction {
    let form = std::num::wrapping_add_usize(i, j) % 4;
    let l = operand(i, form % 2 == 1);
    let r = operand(j, 2 <= form);
    match operation {
        0x1b => Instruction::Compare(Compare::Eq, true, l, r),
        0x1c => Instruction::Compare(Compare::Less, true, l, r),
        0x1d => Instruction::Compare(Compare::LessEq, true, l, r),
        0x1f => Instruction::Unary(Unary::Minus, DEST, j),
        0x20 => Instruction::Unary(Unary::BitNot, DEST, j),
        0x21 => Instruction::Binary(Binary::Add, DEST, l, r),
        0x22 => Instruction::Binary(Binary::Sub, DEST, l, r),
        0x23 => Instruction::Binary(Binary::Mul, DEST, l, r),
        0x24 => Instruction::Binary(Binary::Div, DEST, l, r),
        0x25 => Instruction::Binary(Binary::IDiv, DEST, l, r),
        0x26 => Instruction::Binary(Binary::Mod, DEST, l, r),
        0x28 => Instruction::Binary(Binary::BitAnd, DEST, l, r),
        0x29 => Instruction::Binary(Binary::BitOr, DEST, l, r),
        0x2a => Instruction::Binary(Binary::BitXor, DEST, l, r),
        0x2b => Instruction::Binary(Binary::ShiftLeft, DEST, l, r),
        0x2c => Instruction::Binary(Binary::ShiftRight, DEST, l, r),
        _ => Instruction::Bad(10),
    }
}

// What is asked of a row: the operation, its error's number, and the row's own number.
#[derive(Clone, Copy)]
struct Row {
    operation: u64,
    error: u64,
    number: usize,
}

// Where the result behind one with this tag stands.
fn behind(length: usize, at: usize, tag: u8) -> usize
    requires { at < length }
    ensures { (at < result) × (result ≤ length) }
{
    if (tag == b'i') | (tag == b'n') {
        if 17 < length - at {
            return at + 17;
        }
        return length;
    }
    at + 1
}

// The results of a row, each beside what the machine makes of its operands.
fn compare_row(
    line: &[u8],
    table: &[u64],
    const_kinds: &[u8],
    const_words: &[u64],
    texts: &[u8],
    kinds: &[u8],
    words: &[u64],
    row: Row,
    t: Tally,
) -> Tally {
    let mut tally = t;
    let mut at: usize = 1;
    let mut j: usize = 0;
    while at < line.len() {
        let want = expected(line, at, row.error);
        let i = instruction_of(row.operation, row.number, j);
        let e = effects::evaluate(
            table,
            const_kinds,
            const_words,
            texts,
            kinds,
            words,
            PROTOTYPE,
            BASE,
            i,
        );
        tally = counted(tally, want, of_effect(e));
        at = behind(line.len(), at, want.tag);
        j = std::num::wrapping_add_usize(j, 1);
    }
    tally
}

// ---- the list

// How far a list is: its operands, the row that comes next, and what was compared in this part and in those before it.
#[derive(Clone, Copy)]
struct Run {
    operands: usize,
    row: Row,
    part: Tally,
    total: Tally,
}

fn nothing() -> Tally {
    Tally {
        compared: 0,
        different: 0,
    }
}

fn start() -> Run {
    Run {
        operands: 0,
        row: Row {
            operation: 0,
            error: 0,
            number: 0,
        },
        part: nothing(),
        total: nothing(),
    }
}

// A part's name.
fn name(rt: &impl Print, line: &[u8]) -> io::Result<()> {
    if 2 <= line.len() {
        rt.write_all(&line[2..])?;
    }
    Ok(())
}

impl Run {
    fn with_part(self, part: Tally) -> Run {
        let row = self.row;
        let total = self.total;
        Run {
            operands: self.operands,
            row,
            part,
            total,
        }
    }

    fn with_row(self, row: Row) -> Run {
        let part = self.part;
        let total = self.total;
        Run {
            operands: self.operands,
            row,
            part,
            total,
        }
    }

    fn with_operands(self, operands: usize) -> Run {
        let row = self.row;
        let part = self.part;
        let total = self.total;
        Run {
            operands,
            row,
            part,
            total,
        }
    }

    fn close(self) -> Run {
        let row = self.row;
        let total = sum(self.total, self.part);
        Run {
            operands: self.operands,
            row,
            part: nothing(),
            total,
        }
    }
}

fn next_row(row: Row) -> Row {
    Row {
        operation: row.operation,
        error: row.error,
        number: std::num::wrapping_add_usize(row.number, 1),
    }
}

fn operator_of(line: &[u8]) -> Row {
    Row {
        operation: lists::number_at(line, 1, 2),
        error: lists::number_at(line, 4, 2),
        number: 0,
    }
}

// A line that says something of the list itself: an operator, the end of a part or its name, a new list of operands.
fn direct(rt: &impl Print, line: &[u8], kind: u8, run: Run) -> io::Result<Run> {
    match kind {
        b'o' => Ok(run.with_row(operator_of(line))),
        b'w' => Ok(run.with_operands(0)),
        b'#' => {
            name(rt, line)?;
            Ok(run)
        }
        b'.' => {
            report(rt, run.part)?;
            Ok(run.close())
        }
        _ => Ok(run),
    }
}

// A line of the list.
fn play_line(
    rt: &impl Print,
    line: &[u8],
    table: &[u64],
    const_kinds: &mut [u8],
    const_words: &mut [u64],
    texts: &mut [u8],
    kinds: &mut [u8],
    words: &mut [u64],
    run: Run,
) -> io::Result<Run> {
    let kind = slices::get(line, 0, 0);
    if kind == b'f' {
        return Ok(run.with_part(read(line, const_words, texts, run.part)));
    }
    if (kind == b's') | (kind == b'v') {
        let i = run.operands;
        put_operand(line, const_kinds, const_words, texts, kinds, words, i);
        return Ok(run.with_operands(std::num::wrapping_add_usize(i, 1)));
    }
    if kind == b'r' {
        let part = compare_row(
            line,
            table,
            const_kinds,
            const_words,
            texts,
            kinds,
            words,
            run.row,
            run.part,
        );
        return Ok(run.with_part(part).with_row(next_row(run.row)));
    }
    direct(rt, line, kind, run)
}

// The lines of a page.
fn play_page(
    rt: &impl Print,
    page: &[u8],
    table: &[u64],
    const_kinds: &mut [u8],
    const_words: &mut [u64],
    texts: &mut [u8],
    kinds: &mut [u8],
    words: &mut [u64],
    before: Run,
) -> io::Result<Run> {
    let mut run = before;
    let mut at = 0;
    while at < page.len() {
        let e = lists::find(page, at, b'\n');
        let next = e + 1;
        run = play_line(
            rt,
            &page[at..e],
            table,
            const_kinds,
            const_words,
            texts,
            kinds,
            words,
            run,
        )?;
        at = next;
    }
    Ok(run)
}

// The pages, one after the other. The turns fall because a proved loop has to end; no list needs them all.
fn play(
    rt: &(impl Input + Print),
    page: &mut [u8],
    table: &[u64],
    const_kinds: &mut [u8],
    const_words: &mut [u64],
    texts: &mut [u8],
    kinds: &mut [u8],
    words: &mut [u64],
) -> io::Result<()> {
    let mut run = start();
    let mut turns = u64::MAX;
    while turns > 0 {
        let n = lists::read_full(rt, page)?;
        if n == 0 {
            return finish(rt, run.total);
        }
        run = play_page(
            rt,
            &page[..n],
            table,
            const_kinds,
            const_words,
            texts,
            kinds,
            words,
            run,
        )?;
        turns -= 1;
    }
    Ok(())
}

fn main(rt: HostRuntime) -> io::Result<()> {
    let mut page = [0u8; 65536];
    let mut table = [0u64; storage::TABLE];
    let mut const_kinds = [0u8; 256];
    let mut const_words = [0u64; 256];
    let mut texts = [0u8; 65536];
    let mut kinds = [0u8; 256];
    let mut words = [0u64; 256];
    slices::put(
        &mut table,
        storage::ENTRIES_AT,
        storage::ENTRY * PROTOTYPE + storage::CONSTANT_AT,
        FIRST as u64,
    );
    play(
        &rt,
        &mut page,
        &table,
        &mut const_kinds,
        &mut const_words,
        &mut texts,
        &mut kinds,
        &mut words,
    )
}
