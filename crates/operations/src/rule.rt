ghost use Rattle.std.specs.Prelude.{◌≡◌, ℕ, Bool};
ghost use Rattle.operations.specs.Rules.{pairing, step_pairs};

// A pairing rule means a yes or no for each two classes 0 to 15: whether a release of the first class is
// paired with an acquire of the second. A class over 15 pairs with none, under every rule.
pub trait PairingRule {
    ghost pairs: { Self → ℕ → ℕ → Bool };

    fn paired(&self, release: u8, acquire: u8) -> bool
        ensures { result ≡ pairing (pairs self.now) release acquire };
}

// The step rule: the release's class is even, and the acquire's is one more.
#[derive(Clone, Copy)]
pub struct StepRule;

impl PairingRule for StepRule {
    ghost pairs = { λ s. step_pairs };

    fn paired(&self, release: u8, acquire: u8) -> bool {
        release < 16 && acquire < 16 && release % 2 == 0 && acquire == release + 1
    }
}
