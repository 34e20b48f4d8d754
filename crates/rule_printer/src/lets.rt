//! Lets.
ghost use Rattle.std.specs.Prelude.{◌≡◌, ◌++◌, ◌∷◌, ℕ, List, IfOk, OnOk, string_bytes};
ghost use Rattle.guard_syntax.specs.code.Seen.{see_let};
ghost use Rattle.rule_printer.specs.RuleText.{in_a_row, let_line, merged};
ghost use Rattle.rule_printer.specs.code.Printing.{lets_from};

use crate::conditions::push_expr;
use guard_syntax::Let;
use rule_words::words::push_signed;
use std::alloc::AllocError;

/// Appends the line of a let.
fn push_let(out: &mut String, margin: &str, given: &Let) -> Result<(), AllocError>
    ensures { OnOk result (string_bytes out.new ≡ string_bytes out.old ++ (let_line margin.now (see_let given.now)).1) }
{
    out.push_str(margin)?;
    push_signed(out, "let ", given.name.as_str())?;
    out.push_str(" = ")?;
    push_expr(out, &given.value)?;
    out.push_str("\n")
}

/// Appends the lines of the lets from an index on that stand before a site, and answers the index of the next let.
pub(crate) fn push_lets_before(
    out: &mut String,
    margin: &str,
    lets: &[Let],
    from: usize,
    site: u32,
) -> Result<usize, AllocError>
    ensures { IfOk result (λ next. (text : List ℕ) (others : List (ℕ × List ℕ)) →
        string_bytes out.new ++ in_a_row ((site, text) ∷ merged (lets_from margin.now lets.now next) others)
        ≡ string_bytes out.old ++ in_a_row (merged (lets_from margin.now lets.now from) ((site, text) ∷ others))) }
{
    for i in from..lets.len() {
        let given = &lets[i];
        if site < given.site {
            return Ok(i);
        }
        push_let(out, margin, given)?;
    }
    Ok(lets.len())
}

/// Appends the lines of the lets from an index on.
pub(crate) fn push_lets(
    out: &mut String,
    margin: &str,
    lets: &[Let],
    from: usize,
) -> Result<(), AllocError>
    ensures { OnOk result (string_bytes out.new ≡ string_bytes out.old ++ in_a_row (lets_from margin.now lets.now from)) }
{
    for i in from..lets.len() {
        push_let(out, margin, &lets[i])?;
    }
    Ok(())
}
