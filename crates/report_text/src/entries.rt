//! The lines of entries.
ghost use Rattle.std.specs.Prelude.{◌≡◌, ◌≤◌, ◌++◌, [], ℕ, List, None, Some, true, false, MatchOption, IsErrOf, IsSome, OnOk, OnErr, IfOk, length, slice_index_or};
ghost use Rattle.std.specs.Option.{ForSome};
ghost use Rattle.doc_values.specs.Limits.{rules_limit, template_limit};
ghost use Rattle.doc_values.specs.Tree.{IsTree};
ghost use Rattle.guard_io.specs.Outside.{FaultCounted, IsPrefix};
ghost use Rattle.guard_syntax.specs.code.Seen.{see_part};
ghost use Rattle.rule_names.specs.code.Files.{file_of};
ghost use Rattle.rule_names.specs.Pieces.{piece_at};
ghost use Rattle.rule_meaning.specs.StoreModel.{is_known_ref};
ghost use Rattle.value_store.specs.code.Stores.{see_store};
ghost use Rattle.report_text.specs.EntryLines.{cause_text, data_path, entry_line, node_text, note_of, note_of_part, shown_text, site_text, word_text};
ghost use Rattle.report_text.specs.Texts.{place_of_node};
ghost use Rattle.report_text.specs.code.SeenEntries.{IsShowable, is_made, see_entry, see_shown, see_word, tree_for};
ghost use Rattle.report_text.specs.code.SeenTexts.{see_lined, see_texts};
ghost use Rattle.rule_meaning.specs.Seeing.{see_origin};
ghost use Rattle.report_text.specs.Messages.{note_text};
ghost use Rattle.report_text.specs.Paths.{path_of};

use crate::entry::{Entry, Shown, Word};
use crate::lined::Lined;
use crate::messages::push_quoted;
use crate::paths::push_path;
use crate::put::{ReportFault, put};
use crate::spelling::push_place;
use crate::texts::{LinedTexts, Texts};
use doc_values::Cursor;
use guard_io::Sink;
use guard_syntax::{Origin, Part, Ref};
use rule_names::{Piece, RuleFile};
use std::alloc::{AllocError, Global};
use value_store::{Store, View};

/// Writes the line of an entry: two spaces, the path and the place of what is shown, the word, the place of the part in
/// the rules, and the part's message where it has one. Places are `line:column` from 1, the column in bytes, and behind
/// `params:` in the parameters. The texts are those from which the store's file and data tree were read. After an error the
/// sink has taken a front of the line; `Failed` comes only where its count of faults rose.
pub fn write_entry<S: Sink>(
    alloc: Global,
    texts: &Texts<'_>,
    store: &Store<'_, '_>,
    entry: &Entry,
    sink: &mut S,
) -> Result<(), ReportFault>
    requires shown { IsShowable (see_store store.now) entry.now.shown }
    requires rules { length texts.now.rules.now ≤ rules_limit }
    requires template { length texts.now.template.now ≤ template_limit }
    requires params { ForSome texts.now.params (λ params. length params.text.now ≤ template_limit) }
    ensures ok { OnOk result (ForSome (S.told sink.old) (λ held.
        S.told sink.new ≡ Some (held ++ entry_line (see_store store.now).file (see_store store.now).template (see_texts texts.now) (see_entry (see_store store.now) entry.now)))) }
    ensures err { OnErr result (ForSome (S.told sink.old) (λ held. (front : List ℕ)
        × IsPrefix front (entry_line (see_store store.now).file (see_store store.now).template (see_texts texts.now) (see_entry (see_store store.now) entry.now)) × (S.told sink.new ≡ Some (held ++ front)))) }
    ensures tells { IsSome (S.told sink.old) → IsSome (S.told sink.new) }
    ensures failed { IsErrOf result ReportFault.Failed → FaultCounted (S.faults sink.old) (S.faults sink.new) }
    ensures kept { S.faults sink.old ≤ S.faults sink.new }
{
    match LinedTexts::new(alloc, texts) {
        Ok(texts) => write_entry_over(alloc, &texts, store, entry, sink),
        Err(_) => Err(ReportFault::Memory),
    }
}

/// Writes the line of an entry as `write_entry` does, over texts whose lines are found: so the lines of many entries take no
/// scan of a text each.
pub fn write_entry_over<S: Sink>(
    alloc: Global,
    texts: &LinedTexts<'_>,
    store: &Store<'_, '_>,
    entry: &Entry,
    sink: &mut S,
) -> Result<(), ReportFault>
    requires { IsShowable (see_store store.now) entry.now.shown }
    ensures ok { OnOk result (ForSome (S.told sink.old) (λ held.
        S.told sink.new ≡ Some (held ++ entry_line (see_store store.now).file (see_store store.now).template (see_lined texts.now) (see_entry (see_store store.now) entry.now)))) }
    ensures err { OnErr result (ForSome (S.told sink.old) (λ held. (front : List ℕ)
        × IsPrefix front (entry_line (see_store store.now).file (see_store store.now).template (see_lined texts.now) (see_entry (see_store store.now) entry.now)) × (S.told sink.new ≡ Some (held ++ front)))) }
    ensures tells { IsSome (S.told sink.old) → IsSome (S.told sink.new) }
    ensures failed { IsErrOf result ReportFault.Failed → FaultCounted (S.faults sink.old) (S.faults sink.new) }
    ensures kept { S.faults sink.old ≤ S.faults sink.new }
{
    match line_of(alloc, texts, store, entry) {
        Ok(line) => put(&line, sink),
        Err(_) => Err(ReportFault::Memory),
    }
}

/// The line of an entry.
fn line_of(
    alloc: Global,
    texts: &LinedTexts<'_>,
    store: &Store<'_, '_>,
    entry: &Entry,
) -> Result<Vec<u8>, AllocError>
    requires { IsShowable (see_store store.now) entry.now.shown }
    ensures { IfOk result (λ line. line.items ≡ entry_line (see_store store.now).file (see_store store.now).template (see_lined texts.now) (see_entry (see_store store.now) entry.now)) }
{
    let mut line = Vec::new(alloc);
    line.extend_from_slice(b"  ")?;
    push_shown(&mut line, texts, store, entry.shown)?;
    push_cause(&mut line, store.file, &texts.rules, entry)?;
    Ok(line)
}

/// Appends the word of an entry, and the place and the message of its part.
fn push_cause(
    line: &mut Vec<u8>,
    file: &RuleFile,
    rules: &Lined<'_>,
    entry: &Entry,
) -> Result<(), AllocError>
    ensures { OnOk result (line.new.items ≡ line.old.items ++ cause_text (file_of file.now) rules.now.text.now (see_word entry.now.word) entry.now.part) }
{
    line.push(b' ')?;
    line.extend_from_slice(word_of(entry.word).as_bytes())?;
    line.extend_from_slice(b" by ")?;
    push_site(line, file, rules, entry.part)?;
    push_note(line, file, entry.part)?;
    line.push(b'\n')?;
    Ok(())
}

/// Appends the path and the place of what is shown.
fn push_shown(
    line: &mut Vec<u8>,
    texts: &LinedTexts<'_>,
    store: &Store<'_, '_>,
    shown: Shown,
) -> Result<(), AllocError>
    requires { IsShowable (see_store store.now) shown }
    ensures { OnOk result (line.new.items ≡ line.old.items ++ shown_text (see_store store.now).file (see_store store.now).template (see_lined texts.now) (see_shown (see_store store.now) shown)) }
{
    match shown {
        Shown::Value(value) => push_value(line, texts, store, value),
        Shown::Made { call, value } => {
            line.extend_from_slice(b"call")?;
            push_path(line, node_of(store, value))?;
            line.push(b' ')?;
            push_site(line, store.file, &texts.rules, call)
        }
        Shown::Unmade(call) => {
            line.extend_from_slice(b"call ")?;
            push_site(line, store.file, &texts.rules, call)
        }
    }
}

/// Appends the path and the place of a value of the data tree or of a literal.
fn push_value(
    line: &mut Vec<u8>,
    texts: &LinedTexts<'_>,
    store: &Store<'_, '_>,
    value: Ref,
) -> Result<(), AllocError>
    requires known { is_known_ref (see_store store.now) value ≡ true }
    requires given { is_made value.origin ≡ false }
    ensures { OnOk result (line.new.items ≡ line.old.items ++ node_text (see_store store.now).file (see_store store.now).template (see_lined texts.now) (see_origin (see_store store.now) [] value.origin) value.node) }
{
    let node = node_of(store, value);
    match value.origin {
        Origin::Template => {
            push_data_path(line, node)?;
            line.push(b' ')?;
            push_data_place(line, texts, node.id, node.at())
        }
        Origin::Literal(_) => {
            line.extend_from_slice(b"literal")?;
            push_path(line, node)?;
            line.push(b' ')?;
            push_place(line, &texts.rules, node.at())
        }
        // What a call made is shown under its call.
        Origin::Made { .. } => unreachable!(),
    }
}

/// Appends the place of a byte offset in the text in which a node of the data tree stands.
fn push_data_place(
    line: &mut Vec<u8>,
    texts: &LinedTexts<'_>,
    node: u32,
    at: u32,
) -> Result<(), AllocError>
    ensures { OnOk result (line.new.items ≡ line.old.items ++ place_of_node (see_lined texts.now).template (see_lined texts.now).params node at) }
{
    let Some(params) = &texts.params else {
        return push_place(line, &texts.template, at);
    };
    if node < params.first {
        return push_place(line, &texts.template, at);
    }
    line.extend_from_slice(b"params:")?;
    push_place(line, &params.text, at)
}

/// The node of a value; that of a key is its entry's.
fn node_of<'v, 's>(store: &'v Store<'_, 's>, value: Ref) -> Cursor<'v, 's>
    requires { is_known_ref (see_store store.now) value ≡ true }
    ensures doc { result.doc.now ≡ tree_for (see_store store.entry.now) value }
    ensures id { result.id ≡ value.node }
    ensures tree { IsTree result.doc.now }
{
    let at = Ref {
        origin: value.origin,
        node: value.node,
        key: false,
    };
    match store.view(at) {
        Some(View::At(node)) => {
            // Each document is a tree, as `len` says.
            let _nodes = node.doc.len();
            node
        }
        // What is known has a node, and a key was not asked for.
        Some(View::Key(_)) => unreachable!(),
        None => unreachable!(),
    }
}

/// Appends the path of a node of the data tree.
fn push_data_path(line: &mut Vec<u8>, node: Cursor<'_, '_>) -> Result<(), AllocError>
    requires { IsTree node.doc.now }
    ensures { OnOk result (line.new.items ≡ line.old.items ++ data_path (path_of node.entry.doc.now node.entry.id)) }
{
    match node.parent() {
        None => {
            line.push(b'.')?;
            Ok(())
        }
        Some(_) => push_path(line, node),
    }
}

/// Appends the place at which the part of a site begins.
fn push_site(
    line: &mut Vec<u8>,
    file: &RuleFile,
    rules: &Lined<'_>,
    site: u32,
) -> Result<(), AllocError>
    ensures { OnOk result (line.new.items ≡ line.old.items ++ site_text (file_of file.now) rules.now.text.now site) }
{
    push_place(line, rules, place_of_site(file, site))
}

/// The byte offset of the part of a site; 0 of what is no site.
fn place_of_site(file: &RuleFile, site: u32) -> u32
    ensures { result ≡ slice_index_or (file_of file.now).places site 0 }
{
    let places = file.raw().places.as_slice();
    places.get(site as usize).copied().unwrap_or(0)
}

/// Appends a space and the message of the part of a site in quotes, where it has one.
fn push_note(line: &mut Vec<u8>, file: &RuleFile, site: u32) -> Result<(), AllocError>
    ensures { OnOk result (line.new.items ≡ line.old.items ++ note_text (note_of (piece_at (file_of file.now) site))) }
{
    match note_of(file, site) {
        None => Ok(()),
        Some(note) => {
            line.push(b' ')?;
            push_quoted(line, note)
        }
    }
}

/// The message of the part of a site.
fn note_of(file: &RuleFile, site: u32) -> Option<&str>
    ensures { MatchOption result (note_of (piece_at (file_of file.entry.now) site) ≡ None) (λ note. note_of (piece_at (file_of file.entry.now) site) ≡ Some note.now) }
{
    match file.find(site) {
        Some(Piece::Part(part)) => note_of_part(part),
        _ => None,
    }
}

/// The message of a part.
fn note_of_part(part: &Part) -> Option<&str>
    ensures { MatchOption result (note_of_part (see_part part.entry.now) ≡ None) (λ note. note_of_part (see_part part.entry.now) ≡ Some note.now) }
{
    let note = match part {
        Part::Test { note, .. } => note,
        Part::Refer { note, .. } => note,
        Part::Call { note, .. } => note,
        _ => return None,
    };
    match note {
        None => None,
        Some(note) => Some(note.as_str()),
    }
}

/// The word that is printed.
fn word_of(word: Word) -> &'static str
    ensures { result.now ≡ word_text (see_word word) }
{
    match word {
        Word::Value => "value",
        Word::Missing => "missing",
        Word::Rows => "rows",
        Word::Rule => "rule",
        Word::Call => "call",
    }
}
