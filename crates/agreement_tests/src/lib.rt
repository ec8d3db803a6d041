// Tests over whole records: both keepers, in every pile, give what was worked out by hand, and answer every order
// question alike.
#![tactic(auto)]

#[cfg(test)]
mod counts;
#[cfg(test)]
mod edges;
#[cfg(test)]
mod runs;
