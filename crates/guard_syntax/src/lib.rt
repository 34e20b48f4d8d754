//! The types of a rule file, of references into values, and the names of the built-in functions. They are data that the
//! parser makes and the evaluator walks; nothing here is computed but the function that a name means, which is the one of
//! the language's table. The crate stands on located values, and knows neither the grammar nor the meaning of rules.
#![tactic(auto)]

pub mod function;
pub mod name;
pub mod row;
pub mod syntax;

pub use function::Function;
pub use name::{Name, Names, Places, Text};
pub use row::{Origin, Ref, Row, Verdict};
pub use syntax::{Body, Conds, Disj, Expr, Let, Op, Part, Query, RawFile, Rule, Step, StepForm};
