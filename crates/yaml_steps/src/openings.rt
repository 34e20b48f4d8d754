//! What begins where a node stands outside of brackets: a collection, the map of a tag, or a scalar, which is read whole.
ghost use Rattle.std.specs.Prelude.{◌≡◌, ℕ, List, ◌≤◌, length, true};
ghost use Rattle.yaml_scalars.specs.code.Limits.{text_limit};
ghost use Rattle.yaml_grammar.specs.Nodes.{starts_scalar};
ghost use Rattle.yaml_grammar.specs.Blocks.{takes_scalar, takes_mapping, takes_sequence, takes_tag};
ghost use Rattle.yaml_grammar.specs.code.Reads.{ScalarRead, ValueRead};
ghost use Rattle.yaml_grammar.specs.code.Steps.{stack, HasKey, NoKey, EndsKey, Awaited};

use crate::flow::open;
use crate::point::is_pointed;
use crate::takes::{column_in, tagged};
use doc_values::DocBuilder;
use std::alloc::Global;
use yaml_grammar::{Form, Key, Position, Stage, Stop, Token};
use yaml_nodes::form::Site;
use yaml_nodes::node::{TagMap, begin, begin_tag, offset, take_block_scalar};

/// A sequence begins at a `-`.
pub fn sequence(
    text: &str,
    site: Site,
    forms: &mut Vec<Form>,
    builder: &mut DocBuilder,
) -> Result<Position, Stop>
    requires awaited { Awaited text.now (stack forms.old.items) builder.old site.form site.at site.next }
    requires dash { site.next.token ≡ Token.Dash }
    requires takes { takes_sequence site.form site.next ≡ true }
    ensures { ValueRead text.now site.form site.at site.next (stack forms.old.items) builder.old (stack forms.new.items) builder.new result }
{
    let column = column_in(site.form, site.next);
    match begin(Form::Items { column }, site.next, forms, builder) {
        Ok(()) => Ok(Position {
            stage: Stage::Value,
            at: site.next.behind,
        }),
        Err(refusal) => Err(refusal),
    }
}

/// A mapping begins at its first key.
pub fn mapping<'s>(
    text: &'s str,
    site: Site,
    key: Key<'s>,
    forms: &mut Vec<Form>,
    builder: &mut DocBuilder<'s>,
) -> Result<Position, Stop>
    requires awaited { Awaited text.now (stack forms.old.items) builder.old site.form site.at site.next }
    requires key { HasKey text.now site.next key }
    requires takes { takes_mapping site.form site.next ≡ true }
    requires ends { EndsKey text.now site.next }
    ensures { ValueRead text.now site.form site.at site.next (stack forms.old.items) builder.old (stack forms.new.items) builder.new result }
{
    let Key { text: name, behind } = key;
    let column = column_in(site.form, site.next);
    match begin(Form::Entries { column }, site.next, forms, builder) {
        Err(refusal) => Err(refusal),
        Ok(()) => match builder.key(name, offset(site.next.at)) {
            Ok(()) => Ok(Position {
                stage: Stage::Value,
                at: behind,
            }),
            Err(_) => Err(Stop::NoMemory),
        },
    }
}

/// The map of a tag begins.
pub fn tag<'s>(
    alloc: Global,
    text: &'s str,
    site: Site,
    forms: &mut Vec<Form>,
    builder: &mut DocBuilder<'s>,
) -> Result<Position, Stop>
    requires awaited { Awaited text.now (stack forms.old.items) builder.old site.form site.at site.next }
    requires tag { (len : ℕ) × (site.next.token ≡ Token.Tag len) }
    requires takes { takes_tag site.form site.next ≡ true }
    ensures { ValueRead text.now site.form site.at site.next (stack forms.old.items) builder.old (stack forms.new.items) builder.new result }
{
    let map = TagMap {
        form: tagged(site.form, site.next),
        next: site.next,
    };
    begin_tag(alloc, text, map, forms, builder)
}

/// A scalar where no key stands; over a colon that ends the text a plain one goes on with a letter behind it.
pub fn scalar_there<'s>(
    alloc: Global,
    text: &'s str,
    site: Site,
    builder: &mut DocBuilder<'s>,
) -> Result<Position, Stop>
    requires small { length text.now ≤ text_limit }
    requires awaited { (fs : List Form) × Awaited text.now fs builder.old site.form site.at site.next }
    requires starts { starts_scalar site.next.token ≡ true }
    requires takes { takes_scalar site.form site.next ≡ true }
    requires no_key { takes_mapping site.form site.next ≡ true → NoKey text.now site.next }
    ensures { (fs : List Form) → Awaited text.now fs builder.old site.form site.at site.next → ScalarRead text.now site.form site.at site.next fs builder.old builder.new result }
{
    let position = match take_block_scalar(alloc, text, site, builder) {
        Ok(position) => position,
        Err(stop) => return Err(stop),
    };
    if is_pointed(text, false, site.next.at, position.at) {
        return Err(Stop::Unread(offset(text.len())));
    }
    Ok(position)
}

/// A flow collection begins.
pub fn brackets(
    text: &str,
    site: Site,
    map: bool,
    forms: &mut Vec<Form>,
    builder: &mut DocBuilder,
) -> Result<Position, Stop>
    requires awaited { Awaited text.now (stack forms.old.items) builder.old site.form site.at site.next }
    requires opens { site.next.token ≡ Token.Opens map }
    requires takes { takes_scalar site.form site.next ≡ true }
    ensures { ValueRead text.now site.form site.at site.next (stack forms.old.items) builder.old (stack forms.new.items) builder.new result }
{
    open(map, site.next, forms, builder)
}
