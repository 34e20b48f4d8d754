//! Rules and variables that reach themselves: which, and where it is answered.
ghost use Rattle.std.specs.Prelude.{◌≡◌, ◌+◌, ◌-◌, ◌*◌, ◌<◌, ◌≤◌, ℕ, Some, IfOk, MatchOption, length, map};
ghost use Rattle.guard_syntax.specs.code.Seen.{see_file, see_form, see_step, step_list};
ghost use Rattle.rule_names.specs.Cycles.{IsAcyclic, IsRecursionFault, IsFirstUse, capture_in, given_text, place_in_piece, place_in_step, step_of, text_if, use_place};
ghost use Rattle.rule_names.specs.Graphs.{Reaches};
ghost use Rattle.rule_names.specs.Pieces.{AreInOrder, piece_at};
ghost use Rattle.name_scopes.specs.code.Seen.{see_wrong};
ghost use Rattle.rule_names.specs.code.Seen.{see_piece};
ghost use Rattle.rule_names.specs.ReferenceGraph.{graph_of};
ghost use Rattle.reference_graph.specs.code.Ordering.{IsWalkOutcome};

use guard_syntax::{Name, RawFile, Step, StepForm};
use name_scopes::fault::Wrong;
use reference_graph::{Graph, WalkOutcome, first_on_cycle, first_part_use};
use rule_names::find::in_file;
use rule_names::{NameKind, Piece};
use std::alloc::{AllocError, Global};

/// The place of a use in a form: that of the variable's name where it is spliced in, else the step's.
fn place_in_form(form: &StepForm, place: u32) -> u32
    ensures { (site : ℕ) → result ≡ place_in_step place (Some (see_form form.now site)) }
{
    match form {
        StepForm::Splice(name) => name.at(),
        StepForm::This => place,
        StepForm::Var(_) => place,
        StepForm::Key(_) => place,
        StepForm::Index(_) => place,
        StepForm::Every => place,
        StepForm::Items => place,
        StepForm::Filter(_, _) => place,
        StepForm::Keys { .. } => place,
    }
}

/// The name in a form that captures.
fn text_in_form<'f>(form: &'f StepForm) -> &'f str
    ensures { (site : ℕ) → result.now ≡ text_if (capture_in (Some (see_form form.entry.now site))) }
{
    match form {
        StepForm::Filter(capture, _) => text_of(capture),
        StepForm::Keys { capture, .. } => text_of(capture),
        StepForm::Splice(_) => "",
        StepForm::This => "",
        StepForm::Var(_) => "",
        StepForm::Key(_) => "",
        StepForm::Index(_) => "",
        StepForm::Every => "",
        StepForm::Items => "",
    }
}

/// The text of a name, if there is one.
fn text_of<'f>(name: &'f Option<Name>) -> &'f str
    ensures { result.now ≡ text_if name.entry.now }
{
    match name {
        Some(name) => name.as_str(),
        None => "",
    }
}

/// The place of a use in the step of an index.
fn place_at_step(steps: &[Step], index: usize, place: u32) -> u32
    ensures { result ≡ place_in_step place (step_of (step_list (map see_step steps.now)) index) }
{
    match steps.get(index) {
        Some(step) => place_in_form(&step.form, place),
        None => place,
    }
}

/// The name that the step of an index captures.
fn text_at_step<'f>(steps: &'f [Step], index: usize) -> &'f str
    ensures { result.now ≡ text_if (capture_in (step_of (step_list (map see_step steps.entry.now)) index)) }
{
    match steps.get(index) {
        Some(step) => text_in_form(&step.form),
        None => "",
    }
}

/// The place at which a use is answered, by what stands at its site.
fn place_in_piece(piece: Piece<'_>, place: u32) -> u32
    ensures { result ≡ place_in_piece place (Some (see_piece piece.entry)) }
{
    match piece {
        Piece::Step { query, index } => place_at_step(&query.steps, index, place),
        Piece::File => place,
        Piece::Let(_) => place,
        Piece::Rule(_) => place,
        Piece::Body(_) => place,
        Piece::Conds(_) => place,
        Piece::Disj(_) => place,
        Piece::Part(_) => place,
        Piece::Query(_) => place,
        Piece::Expr(_) => place,
    }
}

/// The name that a rule, a let or a capture gives.
fn text_in_piece<'f>(piece: Piece<'f>) -> &'f str
    ensures { result.now ≡ given_text (Some (see_piece piece.entry)) }
{
    match piece {
        Piece::Rule(rule) => rule.name.as_str(),
        Piece::Let(given) => given.name.as_str(),
        Piece::Step { query, index } => text_at_step(&query.steps, index),
        Piece::File => "",
        Piece::Body(_) => "",
        Piece::Conds(_) => "",
        Piece::Disj(_) => "",
        Piece::Part(_) => "",
        Piece::Query(_) => "",
        Piece::Expr(_) => "",
    }
}

/// The place at which the use at a site is answered.
fn place_of_use(file: &RawFile, site: u32) -> u32
    requires sites { AreInOrder (see_file file.now) }
    requires within { site < length (see_file file.now).places }
    ensures { result ≡ use_place (see_file file.now) site }
{
    let place = file.places.as_slice()[site as usize];
    match in_file(file, site) {
        Some(piece) => place_in_piece(piece, place),
        None => place,
    }
}

/// The name that stands at a site.
fn text_at<'f>(file: &'f RawFile, site: u32) -> &'f str
    requires { AreInOrder (see_file file.now) }
    ensures { result.now ≡ given_text (piece_at (see_file file.entry.now) site) }
{
    match in_file(file, site) {
        Some(piece) => text_in_piece(piece),
        None => "",
    }
}

/// The nodes of a graph that stand for rules, or for lets and captures.
#[derive(Clone, Copy)]
struct Layer {
    /// The fault of one that reaches itself.
    kind: NameKind,
    /// The node of the first site.
    low: u32,
}

/// The fault of a name that reaches itself. It is answered at the first use in what the name stands for that leads back.
fn cycle_of<'f>(
    alloc: Global,
    file: &'f RawFile,
    graph: &Graph,
    layer: Layer,
    node: u32,
) -> Result<Wrong<'f>, AllocError>
    requires sites { AreInOrder (see_file file.now) }
    requires graph { graph.now ≡ graph_of (see_file file.now) }
    requires low { length (see_file file.now).places ≤ layer.low }
    requires node { (layer.low ≤ node) × (node < layer.low + length (see_file file.now).places) }
    requires cycle { Reaches graph.now node node }
    ensures { IfOk result (λ wrong. (site : ℕ) × IsFirstUse (see_file file.entry.now) node site
        × (see_wrong wrong ≡ record { kind = layer.kind; named = record { text = given_text (piece_at (see_file file.entry.now) (node - layer.low)); at = use_place (see_file file.entry.now) site } })) }
{
    let count = file.places.as_slice().len() as u32;
    let Some(site) = first_part_use(alloc, graph, count, node)? else {
        unreachable!()
    };
    Ok(Wrong {
        kind: layer.kind,
        name: text_at(file, node - layer.low),
        at: place_of_use(file, site),
    })
}

/// The first rule that reaches itself; where none does, the first let or capture. The walk is over the graph of the file.
pub fn first_cycle<'f>(
    alloc: Global,
    file: &'f RawFile,
    graph: &Graph,
    walk: &WalkOutcome,
) -> Result<Option<Wrong<'f>>, AllocError>
    requires sites { AreInOrder (see_file file.now) }
    requires graph { graph.now ≡ graph_of (see_file file.now) }
    requires walk { IsWalkOutcome graph.now walk.now }
    ensures { IfOk result (λ found. MatchOption found (IsAcyclic (see_file file.entry.now))
        (λ wrong. IsRecursionFault (see_file file.entry.now) (see_wrong wrong))) }
{
    let count = graph.count() / 3;
    if let Some(node) = first_on_cycle(alloc, graph, walk, count, 2 * count)? {
        let rules = Layer {
            kind: NameKind::RecursiveRule,
            low: count,
        };
        return Ok(Some(cycle_of(alloc, file, graph, rules, node)?));
    }
    if let Some(node) = first_on_cycle(alloc, graph, walk, 2 * count, 3 * count)? {
        let variables = Layer {
            kind: NameKind::RecursiveVariable,
            low: 2 * count,
        };
        return Ok(Some(cycle_of(alloc, file, graph, variables, node)?));
    }
    Ok(None)
}
