//! The scope in which each part of a file stands, by the sites of the parts.
ghost use Rattle.std.specs.Prelude.{◌≡◌, IfOk};
ghost use Rattle.guard_syntax.specs.code.Seen.{see_file};
ghost use Rattle.rule_names.specs.EnclosingScopes.{homes_of};

mod walk;

use guard_syntax::RawFile;
use std::alloc::{AllocError, Global};
use walk::in_file;

/// The site of the scope in which the part of each site stands.
pub fn homes_of(alloc: Global, file: &RawFile) -> Result<Vec<u32>, AllocError>
    ensures { IfOk result (λ homes. homes.items ≡ homes_of (see_file file.now)) }
{
    let mut table = vec![in alloc; 0; file.places.as_slice().len()]?;
    in_file(file, &mut table);
    Ok(table)
}
