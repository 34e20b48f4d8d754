//! Where nodes of a block may begin, and where a block ends: by a form, and what is ahead.
ghost use Rattle.std.specs.Prelude.{◌≡◌, ◌≤◌, None, Some, option_map, MatchOption};
ghost use Rattle.yaml_scalars.specs.code.Limits.{text_limit};
ghost use Rattle.yaml_grammar.specs.Blocks.{block_sign, takes_scalar, takes_mapping, takes_sequence, takes_tag, tagged, column_in};
ghost use Rattle.yaml_grammar.specs.code.Refused.{of_sign};
ghost use Rattle.yaml_grammar.specs.code.Steps.{IsSmall, ends_before};

use yaml_grammar::{Ahead, Form, Stop};
use yaml_nodes::place::is_dash;
use yaml_nodes::sign::{is_tagged, node_sign};

/// Whether a scalar or a flow collection may begin at a token.
pub fn takes_scalar(form: Form, next: Ahead) -> bool
    ensures { result ≡ takes_scalar form next }
{
    match form {
        Form::Root => next.fresh,
        Form::Flow { map: _ } | Form::FlowTagged { at: _ } => false,
        Form::Items { column } => !next.fresh || column < next.column,
        Form::Entries { column } => !next.fresh || column < next.column,
        Form::Tagged {
            at: _,
            above,
            shares: _,
        } => !next.fresh || above <= next.column,
    }
}

/// The sign where a node may begin, if one stands there.
pub fn block_sign(form: Form, next: Ahead) -> Option<Stop>
    requires { next.at ≤ text_limit }
    ensures { MatchOption result (block_sign form next ≡ None) (λ e. Some e ≡ option_map of_sign (block_sign form next)) }
{
    if takes_scalar(form, next) {
        return node_sign(is_tagged(form), next);
    }
    None
}

/// Whether a tag may begin at a token.
pub fn takes_tag(form: Form, next: Ahead) -> bool
    ensures { result ≡ takes_tag form next }
{
    match form {
        Form::Root => next.fresh,
        Form::Flow { map: _ } | Form::FlowTagged { at: _ } => false,
        Form::Items { column } | Form::Entries { column } => { !next.fresh || column < next.column }
        Form::Tagged { .. } => false,
    }
}

/// What stands behind a tag at a token.
pub(crate) fn tagged(form: Form, next: Ahead) -> Form
    requires { IsSmall form }
    ensures { result ≡ tagged form next }
{
    let at = next.at;
    match form {
        Form::Root => Form::Tagged {
            at,
            above: 0,
            shares: false,
        },
        Form::Flow { map: _ } | Form::FlowTagged { at: _ } => Form::Tagged {
            at,
            above: 0,
            shares: false,
        },
        Form::Items { column } => Form::Tagged {
            at,
            above: column + 1,
            shares: false,
        },
        Form::Entries { column } => Form::Tagged {
            at,
            above: column + 1,
            shares: !next.fresh,
        },
        Form::Tagged {
            at: _,
            above,
            shares: _,
        } => Form::Tagged {
            at,
            above,
            shares: false,
        },
    }
}

/// Whether a mapping may begin at a token.
pub fn takes_mapping(form: Form, next: Ahead) -> bool
    ensures { result ≡ takes_mapping form next }
{
    match form {
        Form::Root => next.fresh,
        Form::Flow { map: _ } | Form::FlowTagged { at: _ } => false,
        Form::Items { column } => !next.fresh || column < next.column,
        Form::Entries { column } => next.fresh && column < next.column,
        Form::Tagged {
            at: _,
            above,
            shares: _,
        } => next.fresh && above <= next.column,
    }
}

/// Whether a sequence may begin at a token.
pub fn takes_sequence(form: Form, next: Ahead) -> bool
    requires { next.column ≤ text_limit }
    ensures { result ≡ takes_sequence form next }
{
    match form {
        Form::Root => next.fresh,
        Form::Flow { map: _ } | Form::FlowTagged { at: _ } => false,
        Form::Items { column } => !next.fresh || column < next.column,
        Form::Entries { column } => next.fresh && column <= next.column,
        Form::Tagged {
            at: _,
            above,
            shares,
        } => next.fresh && (above <= next.column || (shares && above == next.column + 1)),
    }
}

/// The column of a collection that begins at a token.
pub(crate) fn column_in(form: Form, next: Ahead) -> usize
    requires small { next.at ≤ text_limit }
    requires form { IsSmall form }
    requires column { next.column ≤ next.at }
    ensures { result ≡ column_in form next }
{
    match form {
        Form::Items { column } if !next.fresh => column + 1 + next.column,
        _ => next.column,
    }
}

/// Whether a block ends before the line of a token.
pub(crate) fn ends_before(form: Form, next: Ahead) -> bool
    ensures { result ≡ ends_before form next }
{
    match form {
        Form::Items { column } => {
            next.column < column || (next.column == column && !is_dash(next.token))
        }
        Form::Entries { column } => next.column < column,
        Form::Tagged { .. } => true,
        Form::Root => false,
        Form::Flow { map: _ } | Form::FlowTagged { at: _ } => false,
    }
}
