//! A whole text.
ghost use Rattle.std.specs.Prelude.{ℕ, ◌≡◌, ◌≤◌, ◌<◌, ◌^◌, length, true, false, None, IsErrOf, IfOk, MatchResult};
ghost use Rattle.std.specs.Result.{IfErr};
ghost use Rattle.std.specs.Str.{IsCharBoundary};
ghost use Rattle.doc_values.specs.Limits.{template_limit};
ghost use Rattle.yaml_scalars.specs.code.Limits.{text_limit};
ghost use Rattle.doc_values.specs.Tree.{size};
ghost use Rattle.yaml_scalars.specs.Lines.{ends_with};
ghost use Rattle.yaml_scalars.specs.Scalar.{begins_order_mark};
ghost use Rattle.yaml_grammar.specs.Answers.{Reads, Refuses};
ghost use Rattle.yaml_grammar.specs.code.Memory.{BeginsDocument};
ghost use Rattle.yaml_grammar.specs.code.Places.{IsSyntaxStop, StopsAt};
ghost use Rattle.yaml_grammar.specs.code.ReadAgain.{SignsAgain};
ghost use Rattle.yaml_grammar.specs.code.Refused.{IsStopped, of_stop};
ghost use Rattle.yaml_grammar.specs.code.Twins.{FixesStart};
ghost use Rattle.yaml_grammar.specs.Yaml.{IsStart, start_sign, text_start};

use crate::step::step;
use crate::twice::read_placed;
use doc_values::{Doc, DocBuilder};
use std::alloc::Global;
use yaml_grammar::{Stage, Stop, Token, YamlRefusal, refusal_of};
use yaml_nodes::ahead::look;
use yaml_nodes::place::last_told;
use yaml_nodes::sign::start_sign;
use yaml_steps::root::root;

/// The tree of a YAML text of at most 8 MiB that is one document, the only one. `NoMemory` says no more of the text than that
/// a document begins: what is refused in front of one takes no memory.
pub fn read_yaml<'s>(alloc: Global, text: &'s str) -> Result<Doc<'s>, YamlRefusal>
    requires { length text.now ≤ template_limit }
    ensures answer { MatchResult result (λ d. Reads text.now d) (λ e. Refuses text.now e) }
    ensures small { IfOk result (λ d. size d < 2 ^ 31) }
    ensures memory { IsErrOf result YamlRefusal.NoMemory → BeginsDocument text.now }
{
    match read_placed(alloc, text) {
        Ok(doc) => Ok(doc),
        Err(stop) => Err(refusal_of(stop)),
    }
}

/// The same tree, or why reading stops.
pub(crate) fn read_document<'s>(alloc: Global, text: &'s str) -> Result<Doc<'s>, Stop>
    requires { length text.now ≤ text_limit }
    ensures answer { MatchResult result (λ d. Reads text.now d) (λ e. IsStopped text.now e) }
    ensures small { IfOk result (λ d. size d < 2 ^ 31) }
    ensures memory { IsErrOf result Stop.NoMemory → BeginsDocument text.now }
    ensures place { IfErr result (λ e. StopsAt text.now e) }
    ensures syntax { ends_with 13 text.now ≡ false → IfErr result (λ e. IsSyntaxStop text.now e) }
    ensures again { IfErr result (λ e. SignsAgain text.now e) }
{
    let start = match document_start(text) {
        Ok(start) => start,
        Err(stop) => return Err(stop),
    };
    let mut forms = Vec::new(alloc);
    let mut builder = DocBuilder::new(alloc);
    let mut position = match root(text, start, &mut builder) {
        Ok(next) => next,
        Err(stop) => return Err(stop),
    };
    while goes_on(position.stage) {
        match step(alloc, text, position, &mut forms, &mut builder) {
            Err(stop) => return Err(stop),
            Ok(next) => position = next,
        }
    }
    Ok(builder.finish())
}

/// Whether something may follow.
fn goes_on(stage: Stage) -> bool
    ensures yes { result ≡ true → stage ≡ Stage.Whole → ⊥ }
    ensures no { result ≡ false → stage ≡ Stage.Whole }
{
    match stage {
        Stage::Whole => false,
        _ => true,
    }
}

fn begins_order_mark(bytes: &[u8]) -> bool
    ensures { result ≡ begins_order_mark bytes.now }
{
    bytes.len() >= 3 && bytes[0] == 239 && bytes[1] == 187 && bytes[2] == 191
}

/// The place behind a byte order mark in front, if there is one.
pub(crate) fn text_start(text: &str) -> usize
    ensures is { result ≡ text_start text.now }
    ensures boundary { IsCharBoundary text.now result }
{
    if begins_order_mark(text.as_bytes()) {
        3
    } else {
        0
    }
}

/// Where the document begins: behind a line `---`, if there is one.
pub(crate) fn document_start(text: &str) -> Result<usize, Stop>
    requires { length text.now ≤ text_limit }
    ensures start { MatchResult result (λ start. IsStart text.now start × IsCharBoundary text.now start × (start_sign text.now ≡ None)) (λ e. IsStopped text.now e) }
    ensures fixes { IfOk result (λ start. FixesStart text.now start) }
    ensures no_memory { ¬ IsErrOf result Stop.NoMemory }
    ensures behind { IfOk result (λ start. text_start text.now ≤ start) }
    ensures place { IfErr result (λ e. StopsAt text.now e) }
    ensures shown { ends_with 13 text.now ≡ false → IfErr result (λ e. IsSyntaxStop text.now e) }
    ensures again { IfErr result (λ e. SignsAgain text.now e) }
    ensures nowhere { IfErr result (λ e. BeginsDocument text.now → ⊥) }
{
    let at = text_start(text);
    let next = look(text, false, at);
    match start_sign(text, next) {
        Some(refusal) => return Err(refusal),
        None => {}
    }
    match next.token {
        Token::Dashes => {
            let further = look(text, false, next.behind);
            if further.fresh {
                Ok(next.behind)
            } else {
                Err(Stop::Unread(last_told(text, further)))
            }
        }
        _ => Ok(at),
    }
}
