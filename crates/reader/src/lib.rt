// Examines a record file: admits its operations in turn, and closes.
#![tactic(auto)]

mod admitting;
mod examining;

pub use admitting::admit_file;
pub use examining::examine;
