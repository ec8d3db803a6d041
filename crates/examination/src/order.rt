ghost use Rattle.std.specs.Prelude.{◌≡◌, ℕ};
ghost use Rattle.examination.specs.Asking.{order_answer};
ghost use Rattle.examination.specs.Runs.{OrderExact};

use crate::fault::ExamFault;
use keepers::Keeper;

// An examination, open or closed: it answers order questions about the operations that were admitted.
pub trait Examination {
    // How many operations were admitted.
    ghost size: { Self → ℕ };

    fn admitted(&self) -> u16
        ensures { result ≡ size self.now };

    // Is operation `a` before operation `b`?
    #[tactic(auto, using(crate::proofs::Reaching::run_count, crate::proofs::Reaching::order_reached))]
    fn before<K: Keeper>(&self, keeper: &mut K, a: u16, b: u16) -> Result<bool, ExamFault>
        ensures answer { result ≡ order_answer (K.Keeper.meaning keeper.old) (size self.now) a b }
        ensures same { K.Keeper.meaning keeper.new ≡ K.Keeper.meaning keeper.old }
        ensures exact { OrderExact (K.Keeper.meaning keeper.old) (size self.now) a b result }
    {
        if keeper.count() != self.admitted() {
            return Err(ExamFault::CountDiffers);
        }
        Ok(keeper.before(a, b)?)
    }
}
