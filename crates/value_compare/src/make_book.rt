//! The patterns of a rule file are made, each text once.
ghost use Rattle.std.specs.Prelude.{◌≡◌, ◌∷◌, ◌≤◌, ℕ, List, [], All, map, IfOk, OnOk, IsErrOf, IsNone, IsSome};
ghost use Rattle.guard_io.specs.Outside.{FaultCounted};
ghost use Rattle.guard_syntax.specs.code.Seen.{see_file};
ghost use Rattle.value_store.specs.code.Books.{IsBookOf};
ghost use Rattle.rule_meaning.specs.NextPattern.{IsNextPattern};
ghost use Rattle.rule_meaning.specs.PatternMatch.{pattern_in};
ghost use Rattle.value_compare.specs.code.Making.{AreRead, IsReadBook, Gains, IsNextOf, refusal_of};
ghost use Rattle.pattern_books.specs.code.Writing.{see_written};
ghost use Rattle.rule_meaning.specs.Patterns.{patterns_of};

use crate::maker::{PatternFault, PatternMaker};
use pattern_books::PatternBook;
use pattern_books::written::{WrittenText, written_texts};
use rule_names::RuleFile;
use std::alloc::Global;

/// Why the patterns of a rule file were not made: the first that was not, by the byte offset of the slash or quote that
/// opens it.
#[derive(Clone, Copy)]
pub enum BookRefusal {
    /// The text is no pattern, or nests deeper than 250 levels.
    BadPattern(u32),
    /// The maker did not make it.
    PatternRefused(u32),
    NoMemory,
}

/// Makes the patterns of a rule file in the order of their places: those in literals, in lists and maps too, and the second
/// arguments of `regex_replace` that are literal texts. A text that stands there twice is made once.
pub fn pattern_book<M: PatternMaker>(
    alloc: Global,
    file: &RuleFile,
    maker: &mut M,
) -> Result<PatternBook, BookRefusal>
    ensures made { IfOk result (λ book. IsBookOf (see_file file.now.raw) book) }
    ensures read { OnOk result (All (λ w. IsSome (pattern_in w.text)) (patterns_of (see_file file.now.raw))) }
    ensures bad { (at : ℕ) → IsErrOf result (BookRefusal.BadPattern at)
        → (text : List ℕ) × IsNextPattern (see_file file.now.raw) text at × IsNone (pattern_in text) }
    ensures refused { (at : ℕ) → IsErrOf result (BookRefusal.PatternRefused at)
        → (text : List ℕ) × IsNextPattern (see_file file.now.raw) text at
        × FaultCounted (M.faults maker.old text) (M.faults maker.new text) }
    ensures kept { (other : List ℕ) → M.faults maker.old other ≤ M.faults maker.new other }
{
    let Ok(texts) = written_texts(alloc, file) else {
        return Err(BookRefusal::NoMemory);
    };
    let mut book = PatternBook::new(alloc);
    add_texts(alloc, &texts, &mut book, maker)?;
    Ok(book)
}

/// Makes the patterns of texts.
fn add_texts<M: PatternMaker>(
    alloc: Global,
    texts: &[WrittenText<'_>],
    book: &mut PatternBook,
    maker: &mut M,
) -> Result<(), BookRefusal>
    requires { IsReadBook book.old }
    ensures gains { OnOk result (Gains book.old book.new (map see_written texts.entry.now)) }
    ensures read { OnOk result (AreRead (map see_written texts.entry.now)) }
    ensures bad { (at : ℕ) → IsErrOf result (BookRefusal.BadPattern at)
        → (text : List ℕ) × IsNextOf (map see_written texts.entry.now) text at × IsNone (pattern_in text) }
    ensures refused { (at : ℕ) → IsErrOf result (BookRefusal.PatternRefused at)
        → (text : List ℕ) × IsNextOf (map see_written texts.entry.now) text at
        × FaultCounted (M.faults maker.old text) (M.faults maker.new text) }
    ensures kept { (other : List ℕ) → M.faults maker.old other ≤ M.faults maker.new other }
{
    for written in texts {
        add_text(alloc, *written, book, maker)?;
    }
    Ok(())
}

/// Makes the pattern of a text, unless the book has it.
fn add_text<M: PatternMaker>(
    alloc: Global,
    written: WrittenText<'_>,
    book: &mut PatternBook,
    maker: &mut M,
) -> Result<(), BookRefusal>
    requires { IsReadBook book.old }
    ensures gains { OnOk result (Gains book.old book.new (see_written written.entry ∷ [])) }
    ensures read { OnOk result (IsSome (pattern_in written.entry.text.now)) }
    ensures book { OnOk result (IsReadBook book.new) }
    ensures bad { (place : ℕ) → IsErrOf result (BookRefusal.BadPattern place) → (place ≡ written.entry.at) × IsNone (pattern_in written.entry.text.now) }
    ensures refused { (place : ℕ) → IsErrOf result (BookRefusal.PatternRefused place)
        → (place ≡ written.entry.at) × FaultCounted (M.faults maker.old written.entry.text.now) (M.faults maker.new written.entry.text.now) }
    ensures kept { (other : List ℕ) → M.faults maker.old other ≤ M.faults maker.new other }
{
    let text = written.text;
    if book.has(text) {
        return Ok(());
    }
    let Ok(key) = String::from_str(alloc, text) else {
        return Err(BookRefusal::NoMemory);
    };
    match maker.make(alloc, text) {
        Ok(pattern) => match book.insert(key, pattern) {
            Ok(()) => Ok(()),
            Err(_) => Err(BookRefusal::NoMemory),
        },
        Err(fault) => Err(refusal_of(fault, written.at)),
    }
}

/// The refusal of a book by the fault of a pattern that stands at a place.
fn refusal_of(fault: PatternFault, at: u32) -> BookRefusal
    ensures { result ≡ refusal_of fault at }
{
    match fault {
        PatternFault::Syntax => BookRefusal::BadPattern(at),
        PatternFault::TooLarge => BookRefusal::PatternRefused(at),
        PatternFault::Memory => BookRefusal::NoMemory,
    }
}
