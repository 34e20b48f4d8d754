//! What the lines before one say: the line of a number, the scope for which a frame stands and the frame around it, the rows
//! that a line gives and the verdict in the frame of a value; and tables by sites, of the parts of the rules, of whose a body is and
//! of what `rule` lines say. So it judges the lines for which looking up is enough: of frames, of literals and of what a query found. Each call
//! answers what its definition in `evidence_rules` says. The crate stands on those definitions and on the store of trees; no
//! step, test or function is evaluated here.
#![tactic(auto)]

pub mod body_frames;
pub mod cited_rows;
pub mod expression_lines;
pub mod frames;
pub mod judged;
pub mod line_context;
pub mod lookup;
pub mod owners;
pub mod tables;
pub mod values;
