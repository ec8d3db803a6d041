// Operations on shared memory: their kinds and pairing rules, and what a record of them tells.
#![tactic(auto)]

mod kind;
mod matrix;
mod operation;
mod rule;
mod source;

pub use kind::{Kind, UnknownKind};
pub use matrix::MatrixRule;
pub use operation::{Operation, may_race};
pub use rule::{PairingRule, StepRule};
pub use source::{latest_write, paired_release, word_fits};
