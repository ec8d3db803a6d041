// Two operations in a data race: an operation, and its racing partner, which is earlier.
#[derive(Clone, Copy, PartialEq, Eq, Debug)]
pub struct RacingPair {
    pub partner: u16,
    pub operation: u16,
}

// How many operations have a racing partner, and the first of them with its partner. It has no
// invariant; an open examination states it. So a struct of a closed one and a `&mut` can be put in an Option or a Result.
#[derive(Clone, Copy, PartialEq, Eq, Debug)]
pub struct Races {
    pub(crate) count: u16,
    pub(crate) first: RacingPair,
}
