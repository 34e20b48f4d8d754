//! Laws over the definitions of `yaml_scalars`: calls that do nothing, whose contracts are the laws. No program calls them.
//! `specs/code/Agreement` says which texts are the same so far, `specs/code/Refusals` what a place of a refusal is,
//! `specs/code/Endings` how a text's lines end, and `specs/code/Digits` what number digits spell. `proofs/Examples` has what
//! the definitions say of small texts.
#![tactic(auto)]

mod escape;
mod scalars;

pub use escape::wanted_digits;
pub use scalars::{
    block_fed, colon_kept, flow_closed, flow_fed, flow_followed, header_ended, key_fed,
    key_followed, key_lengthened, key_returned, return_free, same_scalar, scalar_dotted,
    scalar_ended, scalar_fed, scalar_lettered, scalar_pointed, scalar_undotted, syntax_place,
    undotted_ended,
};
