//! The texts of a drill, a large job that needs no files: rules that always stay the same, and a template with so many
//! resources. The crate stands on `std` alone.
#![tactic(auto)]

pub mod template;

pub use template::drill_template;

/// The rules of a drill: the numbers of the resources of type A are below 5 where there are such resources, all numbers
/// are from 0 to 6, and one of type A has the number 6.
pub const DRILL_RULES: &str =
    "let all = Resources.*[ Type == 'T::A' ]\nrule low when %all !empty { %all.Properties.N < 5 }\nrule every { Resources.* { Properties.N IN r[0,6] } }\nrule odd { some %all.Properties.N == 6 }\n";
