//! A further entry of a sequence or a mapping outside of brackets.
ghost use Rattle.std.specs.Prelude.{◌≡◌, ◌≤◌, length, true, false, None};
ghost use Rattle.std.specs.Str.{IsCharBoundary};
ghost use Rattle.yaml_scalars.specs.code.Limits.{text_limit};
ghost use Rattle.yaml_grammar.specs.code.Reads.{LineRead};
ghost use Rattle.yaml_grammar.specs.code.Rest.{top};
ghost use Rattle.yaml_grammar.specs.Yaml.{text_start};
ghost use Rattle.yaml_grammar.specs.code.Steps.{stack, IsSeen, Open, is_ending, ends_before};

use doc_values::DocBuilder;
use std::alloc::Global;
use yaml_grammar::{Form, Position, Stage, Stop, Token};
use yaml_nodes::form::Site;
use yaml_nodes::node::{as_key, colon_behind, find_scalar, offset, starts_scalar};
use yaml_nodes::place::{colon_place, dash_place, last_told};
use yaml_nodes::sign::node_sign;
use yaml_scalars::Scalar;

/// Another item of a sequence, at its column.
pub fn item(text: &str, site: Site, forms: &[Form], builder: &DocBuilder) -> Result<Position, Stop>
    requires small { length text.now ≤ text_limit }
    requires seen { IsSeen text.now false site.at site.next }
    requires told { is_ending site.next.token ≡ false }
    requires fresh { site.next.fresh ≡ true }
    requires form { top (stack forms.now) ≡ Form.Items site.next.column }
    requires stays { ends_before (Form.Items site.next.column) site.next ≡ false }
    requires open { Open (stack forms.now) builder.now }
    requires awaited { builder.now.key ≡ None }
    requires boundary { IsCharBoundary text.now site.at }
    ensures { LineRead text.now site.at site.next (stack forms.now) builder.now (stack forms.now) builder.now result }
{
    match site.next.token {
        Token::Dash => Ok(Position {
            stage: Stage::Value,
            at: site.next.behind,
        }),
        _ => Err(Stop::Unread(last_told(text, site.next))),
    }
}

/// Another entry of a mapping, at its column.
pub fn entry<'s>(
    alloc: Global,
    text: &'s str,
    site: Site,
    forms: &[Form],
    builder: &mut DocBuilder<'s>,
) -> Result<Position, Stop>
    requires small { length text.now ≤ text_limit }
    requires seen { IsSeen text.now false site.at site.next }
    requires told { is_ending site.next.token ≡ false }
    requires fresh { site.next.fresh ≡ true }
    requires form { top (stack forms.now) ≡ Form.Entries site.next.column }
    requires open { Open (stack forms.now) builder.old }
    requires awaited { builder.old.key ≡ None }
    requires boundary { IsCharBoundary text.now site.at }
    requires behind { text_start text.now ≤ site.at }
    ensures { LineRead text.now site.at site.next (stack forms.now) builder.old (stack forms.now) builder.new result }
{
    match node_sign(false, site.next) {
        Some(refusal) => return Err(refusal),
        None => {}
    }
    if !starts_scalar(site.next.token) {
        return Err(Stop::Unread(dash_place(text, site.next)));
    }
    let scalar = match find_scalar(alloc, text, site.next, as_key(false)) {
        Ok(scalar) => scalar,
        Err(refusal) => return Err(refusal),
    };
    let Scalar {
        kind: _,
        text: words,
        end,
    } = scalar;
    match builder.key(words, offset(site.next.at)) {
        Ok(()) => {}
        Err(refusal) => return Err(Stop::from(refusal)),
    }
    match colon_behind(text, end) {
        Some(behind) => Ok(Position {
            stage: Stage::Value,
            at: behind,
        }),
        None => Err(Stop::Unread(colon_place(text, end))),
    }
}
