// A keeper that stores the order as arrows: each operation's processor and giver. An order question is answered
// by following the arrows backwards.
#![tactic(auto)]

mod arrows;
mod keeper;

pub use keeper::ArrowKeeper;
