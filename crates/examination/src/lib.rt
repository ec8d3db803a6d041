// The examination of a recorded run: its operations are admitted one by one, and closing says whether two of
// them are in a data race.
#![tactic(auto)]

mod admission;
mod closing;
mod fault;
mod open;
mod order;
mod race_free;
mod races;
mod racy;
mod search;

pub use admission::Admitted;
pub use closing::Verdict;
pub use fault::ExamFault;
pub use open::Open;
pub use order::Examination;
pub use race_free::RaceFree;
pub use races::{Races, RacingPair};
pub use racy::Racy;
