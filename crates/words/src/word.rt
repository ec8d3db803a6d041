ghost use Rattle.std.specs.Prelude.{◌≡◌, ℕ, ◌≤◌, List, length, ℤ, if◌then◌else◌, Some, None, Decides, nat_eq};

// The type of the words that operations read and write. A word means a list of whole numbers.
pub trait Word: Copy + PartialEq {
    // What a location holds before the first write to it.
    const INITIAL: Self;

    // How many bytes a word takes in a record file.
    const WIDTH: usize;

    ghost INITIAL: { Self };

    ghost WIDTH: { ℕ };

    ghost narrow: { WIDTH ≤ 8 };

    ghost value: { Self → List ℤ };

    // The meaning of INITIAL.
    ghost start: { List ℤ };

    // The word that so many bytes stand for, the highest byte first.
    ghost decoded: { List ℕ → Self };

    // No `TryFrom`: its bound on every word would be `for<'a> TryFrom<&'a [u8]>`, and no call would be shorter.
    fn decode(bytes: &[u8]) -> Option<Self>
        ensures { result ≡ (if nat_eq (length bytes.now) WIDTH then Some (decoded bytes.now) else None) };

    ghost starts: { value INITIAL ≡ start };

    // Two words are the same exactly when they mean the same.
    ghost same: { (a b : Self) → Decides (Self.eq a b) (value a ≡ value b) };
}
