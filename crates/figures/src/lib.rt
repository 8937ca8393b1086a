// Figures that arrive as text: document 02, 1/12.
#![tactic(auto)]

ghost use Rattle.std.specs.Prelude.{◌≡◌, suc, ◌+◌, ◌*◌, ◌%◌, ◌^◌, ◌<◌, ◌≤◌, false, length, pos, negsuc, unsigned_abs};
ghost use Rattle.std.specs.Float.Ieee.{minus};
ghost use Rattle.std.specs.Float.Ieee.Exact.{HasValue};
ghost use Rattle.integer.specs.Wrap.{wrap};
ghost use Rattle.number.specs.Exact.{signed};
ghost use Rattle.constant.specs.Values.{text_of};
ghost use Rattle.figures.specs.Decimal.{decimal, sign_of};
ghost use Rattle.figures.specs.Texts as Texts;
ghost use Rattle.figures.specs.Texts.{digit_in, digits, after_digits, value_from};
ghost use Rattle.figures.specs.Steps.{one_more, tally, behind_point};
ghost use Rattle.figures.specs.Figures as Figures;
ghost use Rattle.figures.specs.Figured.{figured_of};

use constant::Value;

// What a text reads as, where it is a figure.
#[derive(Clone, Copy, Debug, PartialEq)]
pub enum Figure {
    Integer(i64),
    Number(f64),
}

// ---- the fraction

// The powers of ten that are numbers.
const TENS: [f64; 23] = [
    1e0, 1e1, 1e2, 1e3, 1e4, 1e5, 1e6, 1e7, 1e8, 1e9, 1e10, 1e11, 1e12, 1e13, 1e14, 1e15, 1e16,
    1e17, 1e18, 1e19, 1e20, 1e21, 1e22,
];

// 10^k.
fn ten(k: u64) -> f64
    requires { k ≤ 22 }
    ensures { HasValue result false (10 ^ k) 1 }
{
    TENS[k as usize]
}

// d × 10^(up - down), rounded once.
#[tactic(auto, using(crate::proofs::Scaling::multiplied, crate::proofs::Scaling::divided))]
fn scaled(d: u64, up: u64, down: u64) -> f64
    requires few { d < 10 ^ 15 }
    requires near { unsigned_abs (minus up down) ≤ 22 }
    ensures { result ≡ decimal false d (minus up down) }
{
    let x = d as f64;
    if down <= up {
        x * ten(up - down)
    } else {
        x / ten(down - up)
    }
}

fn signed_number(negative: bool, x: f64) -> f64
    ensures { result ≡ sign_of negative x }
{
    if negative { -x } else { x }
}

// A fraction's digits with a sign: value × 10^zeros, of which `places` stand behind the point.
#[derive(Clone, Copy)]
struct Digits {
    negative: bool,
    value: u64,
    zeros: u64,
    places: u64,
}

impl Digits {
    // value × 10^(zeros - places), where value has no trailing zero.
    #[tactic(auto, using(crate::proofs::FractionLaws::fraction_terms), unfolding(crate::specs::Figures::fraction))]
    fn fraction(self) -> Option<Figure>
        ensures { result ≡ Figures.fraction self.negative self.value (minus self.zeros self.places) }
    {
        if self.value == 0 {
            return Some(Figure::Number(signed_number(self.negative, 0.0)));
        }
        if 1_000_000_000_000_000 <= self.value {
            return None;
        }
        if 22 < self.zeros.abs_diff(self.places) {
            return None;
        }
        let x = scaled(self.value, self.zeros, self.places);
        Some(Figure::Number(signed_number(self.negative, x)))
    }

    // The exponent: a sign and digits.
    #[tactic(auto, using(crate::proofs::FigureLaws::exponent_terms))]
    fn exponent(self, s: &[u8]) -> Option<Figure>
        requires short { length s.now < 65536 }
        requires zeros { self.zeros < 65536 }
        requires places { self.places < 65536 }
        ensures { result ≡ Figures.exponent self.negative self.value self.zeros self.places s.now }
    {
        let (below, s) = sign(s);
        let (x, after) = scan(s, NO_DIGITS);
        if x.count == 0 {
            return None;
        }
        if !only_blanks(after) {
            return None;
        }
        if below {
            return Digits {
                places: self.places + x.value,
                ..self
            }
            .fraction();
        }
        Digits {
            zeros: self.zeros + x.value,
            ..self
        }
        .fraction()
    }

    // What follows the digits of a fraction with a point.
    #[tactic(auto, using(crate::proofs::TextLaws::fronts), unfolding(crate::specs::Figures::pointed))]
    fn pointed(self, s: &[u8]) -> Option<Figure>
        requires short { length s.now < 65536 }
        requires zeros { self.zeros < 65536 }
        requires places { self.places < 65536 }
        ensures { result ≡ Figures.pointed self.negative self.value self.zeros self.places s.now }
    {
        if let [b'e' | b'E', rest @ ..] = s {
            return self.exponent(rest);
        }
        if !only_blanks(s) {
            return None;
        }
        self.fraction()
    }
}

// ---- a text's parts

fn is_blank(b: u8) -> bool
    ensures { result ≡ Texts.blank b }
{
    matches!(b, 9..=13 | 32)
}

fn drop_blanks(s: &[u8]) -> &[u8]
    ensures { result.now ≡ Texts.drop_blanks s.now }
{
    let n = s.iter().take_while(|&&b| is_blank(b)).count();
    &s[n..]
}

#[tactic(auto, using(crate::proofs::TextLaws::blank_terms))]
fn only_blanks(s: &[u8]) -> bool
    ensures { result ≡ Texts.only_blanks s.now }
{
    drop_blanks(s).is_empty()
}

// An optional sign: whether it is -, and what follows it.
fn sign(s: &[u8]) -> (bool, &[u8])
    ensures minus { result.0 ≡ Texts.is_minus s.now }
    ensures behind { result.1.now ≡ Texts.behind_sign s.now }
{
    match s {
        [b'-', rest @ ..] => (true, rest),
        [b'+', rest @ ..] => (false, rest),
        _ => (false, s),
    }
}

// ---- digits

// What a byte stands for as a digit of base 10 or 16. One range after the other, since a `match` over the three is compiled
// to a search that takes a third more steps over small letters.
#[tactic(auto, unfolding(crate::specs::Texts::digit))]
fn digit(b: u8, base: u64) -> Option<u64>
    ensures { result ≡ digit_in base b }
{
    let value = if matches!(b, b'0'..=b'9') {
        b - b'0'
    } else if matches!(b, b'a'..=b'f') {
        b - b'a' + 10
    } else if matches!(b, b'A'..=b'F') {
        b - b'A' + 10
    } else {
        16
    };
    let value = u64::from(value);
    if value < base { Some(value) } else { None }
}

// The digits so far: their value and the value up to the last that is not 0, both at most 2^63 + 1; how many zeros
// follow that one; and how many digits there are.
#[derive(Clone, Copy)]
struct Tally {
    value: u64,
    kept: u64,
    zeros: u64,
    count: usize,
}

const NO_DIGITS: Tally = Tally {
    value: 0,
    kept: 0,
    zeros: 0,
    count: 0,
};

impl Tally {
    // The digits without their trailing zeros, with a sign and so many places behind the point.
    fn digits(self, negative: bool, places: u64) -> Digits
        ensures { result ≡ record { negative = negative; value = self.kept; zeros = self.zeros; places = places } }
    {
        Digits {
            negative,
            value: self.kept,
            zeros: self.zeros,
            places,
        }
    }

    // One digit more.
    #[tactic(auto, unfolding(crate::specs::Steps::one_more))]
    fn one_more(self, c: u64) -> Tally
        requires digit { c < 10 }
        requires zeros { self.zeros < 2 ^ 32 }
        requires count { self.count < 2 ^ 32 }
        ensures { result ≡ one_more self c }
    {
        // Below this, ten times the value and a digit are 2^63 + 1 at most; from it on they are above.
        let value = if self.value < 922_337_203_685_477_581 {
            self.value * 10 + c
        } else {
            0x8000_0000_0000_0001
        };
        let count = self.count + 1;
        if c == 0 {
            return Tally {
                value,
                zeros: self.zeros + 1,
                count,
                ..self
            };
        }
        Tally {
            value,
            kept: value,
            zeros: 0,
            count,
        }
    }
}

// The digits that a text begins with, after those before it, and what follows them.
#[tactic(auto, using(crate::proofs::TallyLaws::scan_terms))]
fn scan(s: &[u8], before: Tally) -> (Tally, &[u8])
    requires zeros { before.zeros + length s.now < 2 ^ 32 }
    requires count { before.count + length s.now < 2 ^ 32 }
    ensures tally { result.0 ≡ tally before (digits 10 s.now) }
    ensures after { result.1.now ≡ after_digits 10 s.now }
{
    let mut t = before;
    let mut rest = s;
    while let [b, tail @ ..] = rest {
        let Some(c) = digit(*b, 10) else {
            return (t, rest);
        };
        t = t.one_more(c);
        rest = tail;
    }
    (t, rest)
}

// The hexadecimal digits that a text begins with: their value, wrapped, and what follows them. One loop over a closure
// for both bases would be no plainer: a digit more has bounds to keep in the decimal run, and none here.
#[tactic(auto, using(crate::proofs::TextLaws::hex_steps))]
fn scan_hex(s: &[u8]) -> (u64, &[u8])
    ensures value { result.0 ≡ value_from 16 0 (digits 16 s.now) % 2 ^ 64 }
    ensures after { result.1.now ≡ after_digits 16 s.now }
{
    let mut value = 0u64;
    let mut rest = s;
    while let [b, tail @ ..] = rest {
        let Some(c) = digit(*b, 16) else {
            return (value, rest);
        };
        value = value.wrapping_mul(16).wrapping_add(c);
        rest = tail;
    }
    (value, rest)
}

// ---- figures

// The integer of size v with a sign, in range.
fn signed_integer(negative: bool, v: u64) -> i64
    ensures { result ≡ wrap (signed negative v) }
{
    if negative {
        return v.wrapping_neg().cast_signed();
    }
    v.cast_signed()
}

// Whether it is in range. Where it isn't, a decimal text is tried as a fraction, and one in hexadecimal wraps.
fn fits_integer(negative: bool, v: u64) -> bool
    ensures { result ≡ Figures.fits_integer negative v }
{
    if negative {
        return v <= 0x8000_0000_0000_0000;
    }
    v < 0x8000_0000_0000_0000
}

// A decimal integer, and what follows its digits.
#[tactic(auto, using(crate::proofs::FigureLaws::whole_terms), unfolding(crate::specs::Figures::whole))]
fn whole(s: &[u8], negative: bool, t: Tally) -> Option<Figure>
    ensures { result ≡ Figures.whole negative t.value t.kept t.zeros s.now }
{
    if !only_blanks(s) {
        return None;
    }
    if fits_integer(negative, t.value) {
        return Some(Figure::Integer(signed_integer(negative, t.value)));
    }
    t.digits(negative, 0).fraction()
}

// What follows the point, after the digits before it.
#[tactic(auto, using(crate::proofs::FigureLaws::run_terms))]
fn behind_point(s: &[u8], negative: bool, before: Tally) -> Option<Figure>
    requires zeros { before.zeros + length s.now < 65536 }
    requires count { before.count + length s.now < 65536 }
    ensures { result ≡ behind_point negative before (tally before (digits 10 s.now)) (after_digits 10 s.now) }
{
    let (t, after) = scan(s, before);
    if t.count == 0 {
        return None;
    }
    let places = (t.count - before.count) as u64;
    t.digits(negative, places).pointed(after)
}

#[tactic(auto, using(crate::proofs::FigureLaws::decimal_terms))]
fn decimal_text(s: &[u8], negative: bool) -> Option<Figure>
    requires { length s.now < 65536 }
    ensures { result ≡ Figures.decimal_text negative s.now }
{
    let (t, after) = scan(s, NO_DIGITS);
    if let [b'.', rest @ ..] = after {
        return behind_point(rest, negative, t);
    }
    if t.count == 0 {
        return None;
    }
    if let [b'e' | b'E', rest @ ..] = after {
        return t.digits(negative, 0).exponent(rest);
    }
    whole(after, negative, t)
}

// Behind 0x.
#[tactic(auto, using(crate::proofs::FigureLaws::hex_terms), unfolding(crate::specs::Figures::hex_text))]
fn hex_text(s: &[u8], negative: bool) -> Option<Figure>
    ensures { result ≡ Figures.hex_text negative s.now }
{
    let (value, after) = scan_hex(s);
    if after.len() == s.len() {
        return None;
    }
    if !only_blanks(after) {
        return None;
    }
    Some(Figure::Integer(signed_integer(negative, value)))
}

#[tactic(auto, using(crate::proofs::TextLaws::fronts), unfolding(crate::specs::Figures::unsigned))]
fn unsigned(s: &[u8], negative: bool) -> Option<Figure>
    requires { length s.now < 65536 }
    ensures { result ≡ Figures.unsigned negative s.now }
{
    if let [b'0', b'x' | b'X', rest @ ..] = s {
        return hex_text(rest, negative);
    }
    decimal_text(s, negative)
}

// What a text reads as.
#[tactic(auto, using(crate::proofs::FigureLaws::text_terms))]
fn figure_text(s: &[u8]) -> Option<Figure>
    requires { length s.now < 65536 }
    ensures { result ≡ Figures.figure_of s.now }
{
    let (negative, rest) = sign(drop_blanks(s));
    unsigned(rest, negative)
}

// What the string whose constant has this number reads as.
pub fn figure_of(const_words: &[u64], texts: &[u8], n: u64) -> Option<Figure>
    ensures { result ≡ Figures.figure_of (text_of const_words.now texts.now n) }
{
    figure_text(constant::text_of(const_words, texts, n))
}

// What arithmetic and bit operations take a value for: a string that reads as a figure becomes that integer or number,
// every other value stays as it is.
pub fn figured(v: Value, const_words: &[u64], texts: &[u8]) -> Value
    ensures { result ≡ figured_of const_words.now texts.now v }
{
    let Value::String(n) = v else {
        return v;
    };
    match figure_of(const_words, texts, n) {
        Some(Figure::Integer(x)) => Value::Integer(x),
        Some(Figure::Number(x)) => Value::Number(x),
        None => v,
    }
}
