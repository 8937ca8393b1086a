// The words of the command line: what each stands for as an argument of the rule, and as a budget.
ghost use Rattle.std.specs.Prelude.{◌≡◌, ◌<◌, length};
ghost use Rattle.figures.specs.Figures.{figure_of};
ghost use Rattle.figures.specs.Figured.{read_as};
ghost use Rattle.deletion.specs.Words.{says, argument_of, allowed_of, budget_of};

use constant::Value;

// Whether a word says just this.
fn is_word(word: &[u8], name: &[u8]) -> bool
    ensures { result ≡ says name.now word.now }
{
    comparison::compare_texts(word, name).is_eq()
}

// What a word reads as: an integer or a number, or else a string still. To the machine a text is a constant's, so it is told
// where this one lies: all of it.
fn read(word: &[u8]) -> Value
    requires { length word.now < 65536 }
    ensures { result ≡ read_as 0 (figure_of word.now) }
{
    let all = [word.len() as u64];
    figures::figured(Value::String(0), &all, word)
}

#[tactic(auto, unfolding(crate::specs::Words::argument_of))]
pub(crate) fn argument_of(word: &[u8]) -> Value
    requires { length word.now < 65536 }
    ensures { result ≡ argument_of word.now }
{
    if is_word(word, b"nil") {
        return Value::Nil;
    }
    if is_word(word, b"true") {
        return Value::Boolean(true);
    }
    if is_word(word, b"false") {
        return Value::Boolean(false);
    }
    read(word)
}

// A budget, or none.
#[tactic(auto, unfolding(crate::specs::Words::small_of))]
fn allowed(v: Value) -> Option<u32>
    ensures { result ≡ allowed_of v }
{
    match v {
        Value::Integer(x) => u32::try_from(integer::to_word(x)).ok(),
        _ => None,
    }
}

pub(crate) fn budget_of(word: &[u8]) -> Option<u32>
    requires { length word.now < 65536 }
    ensures { result ≡ budget_of word.now }
{
    allowed(read(word))
}
