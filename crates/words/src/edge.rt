ghost use Rattle.std.specs.Prelude.{[], ◌∷◌, pos, refl};
ghost use Rattle.std.proofs.Common.{lit≤, rules, to_z};
ghost use Rattle.std.specs.Int.{w32};
ghost use Rattle.words.specs.Bytes.{big32};

use crate::word::Word;

// An edge of the graph: its target, and its cost in two's complement, both initially 0.
#[derive(Clone, Copy, PartialEq, Eq, Debug)]
pub struct Edge {
    pub target: u32,
    pub cost: i32,
}

impl Word for Edge {
    const INITIAL: Edge = Edge { target: 0, cost: 0 };

    const WIDTH: usize = 8;

    ghost INITIAL = { record { target = 0; cost = pos 0 } };

    ghost WIDTH = { 8 };

    ghost narrow = { lit≤ tt };

    ghost value = { λ w. pos w.target ∷ w.cost ∷ [] };

    ghost start = { pos 0 ∷ pos 0 ∷ [] };

    ghost decoded = { λ bs. record { target = big32 bs 0; cost = to_z w32 (big32 bs 4) } };

    ghost starts = { refl };

    ghost same = { Prim.search rules };

    fn decode(bytes: &[u8]) -> Option<Edge> {
        let [a, b, c, d, e, f, g, h] = bytes else {
            return None;
        };
        Some(Edge {
            target: u32::from_be_bytes([*a, *b, *c, *d]),
            cost: i32::from_be_bytes([*e, *f, *g, *h]),
        })
    }
}
