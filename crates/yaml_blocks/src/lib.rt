//! YAML 1.2.2 in a profile. `read_yaml` reads a document: scalars, block sequences and block mappings, flow collections,
//! and short tags, with comments, a byte order mark, and the lines `---` and `...` round it. It answers just the trees that
//! the relation of `specs/Yaml` gives; where that gives none, the sign that counts there, if one does. The crate takes the steps
//! of `yaml_steps`, one after another, and builds trees of `doc_values`.
#![tactic(auto)]

mod block;
mod read;
mod step;
mod twice;

pub use read::read_yaml;
pub use yaml_grammar::{Token, YamlRefusal};
