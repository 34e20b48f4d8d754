//! Words and signs between the parts of a text.
ghost use Rattle.std.specs.Prelude.{◌≡◌, ◌++◌, OnOk, codes, decimal, string_bytes};
ghost use Rattle.rule_words.specs.WordText.{note_text, operator_text, operator_word, word_if};
ghost use Rattle.rule_words.specs.code.Appended.{between};

use guard_syntax::{Op, Text};
use itoa::Buffer;
use std::alloc::AllocError;

/// Appends what stands in front of the item at an index: nothing in front of the first, a separator in front of each other.
pub fn push_between(out: &mut String, index: usize, separator: &str) -> Result<(), AllocError>
    ensures { OnOk result (string_bytes out.new ≡ string_bytes out.old ++ between index separator.now) }
{
    match index {
        0 => Ok(()),
        _ => out.push_str(separator),
    }
}

/// Appends a word, if it is there.
pub fn push_word_if(out: &mut String, there: bool, word: &str) -> Result<(), AllocError>
    ensures { OnOk result (string_bytes out.new ≡ string_bytes out.old ++ word_if there word.now) }
{
    if there { out.push_str(word) } else { Ok(()) }
}

/// Appends a name or a message behind its sign.
pub fn push_signed(out: &mut String, sign: &str, name: &str) -> Result<(), AllocError>
    ensures { OnOk result (string_bytes out.new ≡ (string_bytes out.old ++ sign.now) ++ name.now) }
{
    out.push_str(sign)?;
    out.push_str(name)
}

fn operator_word(op: Op) -> &'static str
    ensures { result.now ≡ operator_word op }
{
    match op {
        Op::Exists => "exists",
        Op::Empty => "empty",
        Op::IsString => "is_string",
        Op::IsList => "is_list",
        Op::IsStruct => "is_struct",
        Op::IsBool => "is_bool",
        Op::IsInt => "is_int",
        Op::IsFloat => "is_float",
        Op::IsNull => "is_null",
        Op::Eq => "==",
        Op::Lt => "<",
        Op::Le => "<=",
        Op::Gt => ">",
        Op::Ge => ">=",
        Op::Within => "IN",
    }
}

/// Appends an operator.
pub(crate) fn push_operator(out: &mut String, op: Op, not: bool) -> Result<(), AllocError>
    ensures { OnOk result (string_bytes out.new ≡ string_bytes out.old ++ operator_text op not) }
{
    if !not {
        return out.push_str(operator_word(op));
    }
    match op {
        Op::Eq => out.push_str("!="),
        _ => {
            out.push_str("!")?;
            out.push_str(operator_word(op))
        }
    }
}

/// Appends an operator, with the space in front.
pub fn push_spaced_operator(out: &mut String, op: Op, not: bool) -> Result<(), AllocError>
    ensures { OnOk result (string_bytes out.new ≡ (string_bytes out.old ++ codes " ") ++ operator_text op not) }
{
    out.push_str(" ")?;
    push_operator(out, op, not)
}

/// Appends the name of a rule, negated or not.
pub fn push_rule_name(out: &mut String, not: bool, name: &str) -> Result<(), AllocError>
    ensures { OnOk result (string_bytes out.new ≡ (string_bytes out.old ++ word_if not (codes "not ")) ++ name.now) }
{
    push_word_if(out, not, "not ")?;
    out.push_str(name)
}

/// Appends the message of a part, if it has one.
pub fn push_note(out: &mut String, note: &Option<Text>) -> Result<(), AllocError>
    ensures { OnOk result (string_bytes out.new ≡ string_bytes out.old ++ note_text note.now) }
{
    match note {
        Some(text) => {
            push_signed(out, " << ", text.as_str())?;
            out.push_str(" >>")
        }
        None => Ok(()),
    }
}

/// Appends an index behind a dot, with the dot.
pub fn push_index(out: &mut String, index: u32) -> Result<(), AllocError>
    ensures { OnOk result (string_bytes out.new ≡ string_bytes out.old ++ (codes "." ++ decimal index)) }
{
    let mut digits = Buffer::new();
    out.push_str(".")?;
    out.push_str(digits.format(index))
}
