// Keepers of the order among recorded operations: what every keeper promises.
#![tactic(auto)]

mod extent;
mod fault;
mod keeper;
mod processors;
mod refusal;

pub use extent::Extent;
pub use fault::KeeperFault;
pub use keeper::Keeper;
pub use processors::Processors;
pub use refusal::{Adds, Refusal};
