//! Calls of any function.
ghost use Rattle.std.specs.Prelude.{◌≡◌, [], true, IfOk, IfSome, IsOk, length, map};
ghost use Rattle.std.specs.List.{list_all};
ghost use Rattle.rule_names.specs.Uses.{arity};
ghost use Rattle.value_store.specs.code.Books.{has_text};
ghost use Rattle.rule_meaning.specs.Functions.{Functions, argument, single_text};
ghost use Rattle.value_store.specs.code.Stores.{see_store};
ghost use Rattle.guard_builtins.specs.code.Memory.{is_by_row};
ghost use Rattle.guard_builtins.specs.code.Seen.{is_plain, see_made, see_rows};

use crate::functions::{count, join, rows_for, substring};
use crate::made::Made;
use crate::replace::regex_replace;
use guard_syntax::{Function, Row};
use pattern_books::PatternBook;
use std::alloc::{AllocError, Global};
use value_functions::Change;
use value_store::Store;

/// What the call of a function at a site answers: a row for each row of its first argument, or its one row. It wants as many
/// arguments as the function takes, and of `regex_replace` a book that has the pattern. Where it answers a row for each row
/// of its first argument and that has none, no memory is taken.
pub fn call(
    alloc: Global,
    function: Function,
    site: u32,
    args: &[Vec<Row>],
    store: &Store<'_, '_>,
    book: &PatternBook,
) -> Result<Vec<Made>, AllocError>
    requires count { length args.now ≡ arity function }
    requires pattern { function ≡ Function.RegexReplace
        → IfSome (single_text (see_store store.now) (argument (map see_rows args.now) 1)) (λ text. has_text book.now text ≡ true) }
    ensures rows { IfOk result (λ made. Functions (see_store store.now) function site (map see_rows args.now) (map see_made made.items)) }
    ensures plain { IfOk result (λ made. list_all is_plain made.items ≡ true) }
    ensures no_memory { is_by_row function ≡ true → argument (map see_rows args.now) 0 ≡ [] → IsOk result }
{
    let rows = args[0].as_slice();
    let mut change = match function {
        Function::Count => return count(alloc, rows),
        Function::Join => return join(alloc, site, rows, &args[1], store),
        Function::RegexReplace => {
            return regex_replace(alloc, site, rows, &args[1], &args[2], store, book);
        }
        Function::Substring => return substring(alloc, site, rows, &args[1], &args[2], store),
        Function::JsonParse => Change::JsonParse,
        Function::ToLower => Change::ToLower,
        Function::ToUpper => Change::ToUpper,
        Function::UrlDecode => Change::UrlDecode,
        Function::ParseInt => Change::ParseInt,
        Function::ParseFloat => Change::ParseFloat,
        Function::ParseBoolean => Change::ParseBoolean,
        Function::ParseString => Change::ParseString,
    };
    rows_for(alloc, &mut change, site, rows, store)
}
