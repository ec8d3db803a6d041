// A keeper that stores the order as counts: each operation's row of numbers says how many operations of each
// processor are before it or are it.
#![tactic(auto)]

mod keeper;
mod rows;

pub use keeper::ClockKeeper;
