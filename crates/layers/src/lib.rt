// Layers that stand over any keeper: an allowance, and other processor numbers.
#![tactic(auto)]

mod allowance;
mod list;
mod renumber;

pub use allowance::Allowance;
pub use list::RenumberList;
pub use renumber::Renumber;
