ghost use Rattle.std.specs.Prelude.{[], ◌∷◌, pos, refl};
ghost use Rattle.std.proofs.Common.{lit≤, rules};
ghost use Rattle.words.specs.Bytes.{big32};

use crate::word::Word;

// A count: 32 bits unsigned, initially 0.
#[derive(Clone, Copy, PartialEq, Eq, Debug)]
pub struct Count {
    pub number: u32,
}

impl Word for Count {
    const INITIAL: Count = Count { number: 0 };

    const WIDTH: usize = 4;

    ghost INITIAL = { record { number = 0 } };

    ghost WIDTH = { 4 };

    ghost narrow = { lit≤ tt };

    ghost value = { λ w. pos w.number ∷ [] };

    ghost start = { pos 0 ∷ [] };

    ghost decoded = { λ bs. record { number = big32 bs 0 } };

    ghost starts = { refl };

    ghost same = { Prim.search rules };

    fn decode(bytes: &[u8]) -> Option<Count> {
        let [a, b, c, d] = bytes else {
            return None;
        };
        Some(Count {
            number: u32::from_be_bytes([*a, *b, *c, *d]),
        })
    }
}
