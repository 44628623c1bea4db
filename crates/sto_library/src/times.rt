//! A task that runs one code again and again.
ghost use Rattle.std.specs.Prelude.{max};
ghost use Rattle.sto_library.specs.Doings.{HasGiven};

use crate::task::Task;
use crate::worker::StoreWorker;
use sto_action::{Action, Done, TransactionError};
use sto_type::TxType;

/// So many times the same code, once at least: `Times(20, code)`. It gives how the last time went, or the first error, after which it
/// runs the code no more.
#[derive(Clone, Copy)]
pub struct Times<K>(pub u32, pub K);

impl<T: TxType, K: Action> Task<T> for Times<K>
where
    K::Out: Drop,
    K::Reason: Drop,
{
    type Out = Result<Done<K::Out, K::Reason>, TransactionError>;

    ghost gives = { λ r before after told. HasGiven T.TxType before after (max r.0 1) (K.most r.1) (K.does r.1) told };

    fn work(
        &self,
        worker: &mut StoreWorker<'_, T>,
    ) -> Result<Done<K::Out, K::Reason>, TransactionError> {
        for _turn in 1..self.0 {
            let told = worker.run(&self.1);
            if told.is_err() {
                return told;
            }
        }
        worker.run(&self.1)
    }
}
