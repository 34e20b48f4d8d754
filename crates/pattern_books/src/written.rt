//! The texts of a rule file that are read as patterns, in the order of their places.
ghost use Rattle.std.specs.Prelude.{◌≡◌, ◌∷◌, ◌++◌, ◌<◌, ℕ, [], length, map, slice_index_or, IfOk, IfSome, MatchOption, OnOk, true, false};
ghost use Rattle.doc_values.specs.Places.{label_at};
ghost use Rattle.doc_values.specs.Tree.{has_text};
ghost use Rattle.guard_syntax.specs.code.Seen.{see_file};
ghost use Rattle.pattern_books.specs.code.Writing.{see_written};
ghost use Rattle.value_store.specs.code.Books.{written};
ghost use Rattle.rule_meaning.specs.Patterns.{is_sought, patterns_at, patterns_in, patterns_of, sought_text};

use crate::sought::sought_sites;
use doc_values::{Cursor, Doc, Kind};
use rule_names::{PieceTable, RuleFile};
use std::alloc::{AllocError, Global};
use value_store::literals::literal_in;

/// A text that is read as a pattern, and the byte offset of the slash or quote that opens it.
#[derive(Clone, Copy)]
pub struct WrittenText<'f> {
    pub text: &'f str,
    pub at: u32,
}

/// The texts of a rule file that are read as patterns: the patterns in literals, in lists and maps too, and the second
/// arguments of `regex_replace` that are literal texts.
pub fn written_texts(alloc: Global, file: &RuleFile) -> Result<Vec<WrittenText<'_>>, AllocError>
    ensures { IfOk result (λ texts. map see_written texts.items ≡ patterns_of (see_file file.entry.now.raw)) }
{
    // So many sites take more memory than there is.
    let Some(sites) = site_count(file) else {
        return Err(AllocError);
    };
    let table = PieceTable::new(alloc, file)?;
    table_texts(alloc, &table, sites)
}

/// The texts of a table of parts, of so many sites.
fn table_texts<'f>(
    alloc: Global,
    table: &PieceTable<'f>,
    sites: u32,
) -> Result<Vec<WrittenText<'f>>, AllocError>
    requires { sites ≡ length (see_file table.now.file.now.raw).places }
    ensures { IfOk result (λ texts. map see_written texts.items ≡ patterns_of (see_file table.entry.now.file.now.raw)) }
{
    let sought = sought_sites(alloc, table, sites)?;
    texts_in(alloc, table, &sought)
}

/// How many sites a file has, if they can be numbered.
fn site_count(file: &RuleFile) -> Option<u32>
    ensures { IfSome result (λ n. n ≡ length (see_file file.now.raw).places) }
{
    let raw = file.raw();
    let places = raw.places.as_slice();
    match u32::try_from(places.len()) {
        Ok(count) => Some(count),
        Err(_) => None,
    }
}

/// The texts of all sites, of each of which is told whether a pattern is read from the text of its literal.
fn texts_in<'f>(
    alloc: Global,
    table: &PieceTable<'f>,
    sought: &[bool],
) -> Result<Vec<WrittenText<'f>>, AllocError>
    requires sites { length sought.now ≡ length (see_file table.now.file.now.raw).places }
    requires sought { (n : ℕ) → n < length sought.now → slice_index_or sought.now n false ≡ is_sought (see_file table.now.file.now.raw) n }
    requires counted { length sought.now < 4294967296 }
    ensures { IfOk result (λ texts. map see_written texts.items ≡ patterns_of (see_file table.entry.now.file.now.raw)) }
{
    let mut texts = Vec::new(alloc);
    for site in 0..sought.len() as u32 {
        push_site(table, site, sought[site as usize], &mut texts)?;
    }
    Ok(texts)
}

/// Adds the texts of the literal of a site.
fn push_site<'f>(
    table: &PieceTable<'f>,
    site: u32,
    sought: bool,
    texts: &mut Vec<WrittenText<'f>>,
) -> Result<(), AllocError>
    requires { sought ≡ is_sought (see_file table.now.file.now.raw) site }
    ensures { OnOk result (map see_written texts.new.items ≡ map see_written texts.old.items ++ patterns_at (see_file table.entry.now.file.now.raw) site) }
{
    match literal_in(table, site) {
        None => Ok(()),
        Some(tree) => push_literal(tree, sought, texts),
    }
}

/// Adds the texts of a literal, from whose own text a pattern is read or not.
fn push_literal<'f>(
    tree: &'f Doc<'static>,
    sought: bool,
    texts: &mut Vec<WrittenText<'f>>,
) -> Result<(), AllocError>
    ensures { OnOk result (map see_written texts.new.items ≡ map see_written texts.old.items ++ (sought_text sought tree.entry.now ++ patterns_in tree.entry.now)) }
{
    push_sought(tree, sought, texts)?;
    push_patterns(tree, texts)
}

/// Adds the text of a literal, if a pattern is read from it.
fn push_sought<'f>(
    tree: &'f Doc<'static>,
    sought: bool,
    texts: &mut Vec<WrittenText<'f>>,
) -> Result<(), AllocError>
    ensures { OnOk result (map see_written texts.new.items ≡ map see_written texts.old.items ++ sought_text sought tree.entry.now) }
{
    match text_root(tree, sought) {
        None => Ok(()),
        Some(root) => push_node(root, texts),
    }
}

/// The root of a literal, if it is a text from which a pattern is read.
fn text_root<'t>(tree: &'t Doc<'static>, sought: bool) -> Option<Cursor<'t, 'static>>
    ensures root { MatchOption result (sought_text sought tree.entry.now ≡ [])
        (λ root. sought_text sought tree.entry.now ≡ record { text = (label_at root.doc.now root.id).text; at = (label_at root.doc.now root.id).at } ∷ []) }
    ensures text { IfSome result (λ root. has_text (label_at root.doc.now root.id).kind ≡ true) }
{
    if !sought || tree.len() == 0 {
        return None;
    }
    let root = tree.cursor(0);
    match root.kind() {
        Kind::Text => Some(root),
        _ => None,
    }
}

/// Adds the patterns of a tree.
fn push_patterns<'f>(
    tree: &'f Doc<'static>,
    texts: &mut Vec<WrittenText<'f>>,
) -> Result<(), AllocError>
    ensures { OnOk result (map see_written texts.new.items ≡ map see_written texts.old.items ++ patterns_in tree.entry.now) }
{
    for id in 0..tree.len() {
        push_pattern(tree.cursor(id), texts)?;
    }
    Ok(())
}

/// Adds a node, if it is a pattern.
fn push_pattern<'f>(
    node: Cursor<'f, 'static>,
    texts: &mut Vec<WrittenText<'f>>,
) -> Result<(), AllocError>
    ensures { OnOk result (map see_written texts.new.items ≡ map see_written texts.old.items ++ written (label_at node.entry.doc.now node.entry.id)) }
{
    match node.kind() {
        Kind::Pattern => push_node(node, texts),
        _ => Ok(()),
    }
}

/// Adds a node that has a text.
fn push_node<'f>(
    node: Cursor<'f, 'static>,
    texts: &mut Vec<WrittenText<'f>>,
) -> Result<(), AllocError>
    requires { has_text (label_at node.doc.now node.id).kind ≡ true }
    ensures { OnOk result (map see_written texts.new.items ≡ map see_written texts.old.items
        ++ record { text = (label_at node.entry.doc.now node.entry.id).text; at = (label_at node.entry.doc.now node.entry.id).at } ∷ []) }
{
    let text = node.text();
    let at = node.at();
    texts.push(WrittenText { text, at })?;
    Ok(())
}
