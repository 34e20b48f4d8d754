//! Where no node stands outside of brackets.
ghost use Rattle.std.specs.Prelude.{◌≡◌, ℕ, List, ◌≤◌, length, true, false, None};
ghost use Rattle.yaml_scalars.specs.code.Limits.{text_limit};
ghost use Rattle.yaml_grammar.specs.Nodes.{is_tagged};
ghost use Rattle.yaml_grammar.specs.Blocks.{block_sign, takes_scalar};
ghost use Rattle.yaml_grammar.specs.code.Reads.{ValueRead};
ghost use Rattle.yaml_grammar.specs.code.Steps.{Awaited, NoNode};

use crate::takes::takes_scalar;
use doc_values::DocBuilder;
use yaml_grammar::{Form, Position, Stop, Token};
use yaml_nodes::form::Site;
use yaml_nodes::node::take_null;
use yaml_nodes::place::{dash_place, last_told};

/// No node stands there: it is null, but for the root.
pub fn missing(text: &str, site: Site, builder: &mut DocBuilder) -> Result<Position, Stop>
    requires small { length text.now ≤ text_limit }
    requires awaited { (fs : List Form) × Awaited text.now fs builder.old site.form site.at site.next }
    requires none { NoNode site.form site.next }
    requires unsigned { block_sign site.form site.next ≡ None }
    requires once { is_tagged site.form ≡ true → (len : ℕ) → site.next.token ≡ Token.Tag len → ⊥ }
    requires late { site.next.token ≡ Token.Dash → takes_scalar site.form site.next ≡ false }
    ensures { (fs : List Form) → Awaited text.now fs builder.old site.form site.at site.next → ValueRead text.now site.form site.at site.next fs builder.old fs builder.new result }
{
    match site.form {
        Form::Root => Err(Stop::Unread(last_told(text, site.next))),
        _ => take_null(site.at, site.at, builder),
    }
}

/// A `-` where no sequence may begin: on the line of a key or a tag nothing may follow it.
pub fn late_dash(text: &str, site: Site, builder: &mut DocBuilder) -> Result<Position, Stop>
    requires small { length text.now ≤ text_limit }
    requires awaited { (fs : List Form) × Awaited text.now fs builder.old site.form site.at site.next }
    requires dash { site.next.token ≡ Token.Dash }
    requires none { NoNode site.form site.next }
    requires unsigned { block_sign site.form site.next ≡ None }
    ensures { (fs : List Form) → Awaited text.now fs builder.old site.form site.at site.next → ValueRead text.now site.form site.at site.next fs builder.old fs builder.new result }
{
    if takes_scalar(site.form, site.next) {
        return Err(Stop::Unread(dash_place(text, site.next)));
    }
    missing(text, site, builder)
}
