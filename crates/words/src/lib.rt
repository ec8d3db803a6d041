// The words that operations read and write: what every word type promises, counts and edges.
#![tactic(auto)]

mod count;
mod edge;
mod word;

pub use count::Count;
pub use edge::Edge;
pub use word::Word;
