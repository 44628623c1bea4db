//! The store of a file's objects.
ghost use Rattle.std.specs.Prelude.{IfOk};
ghost use Rattle.sto_lang.specs.Objects.{shapes_of};
ghost use Rattle.sto_lang.specs.Sound.{IsSound};
ghost use Rattle.sto_serializability.specs.Meanings.{IsTypeOf};
ghost use Rattle.sto_run_threads.specs.Taken.{IsTaken};
ghost use Rattle.sto_store.specs.ObjectShapes.{AreOf};

use std::alloc::Global;
use sto_part::NoMemory;
use sto_run_threads::Workload;
use sto_store::{Objects, build};
use sto_type::TxType;

/// The objects of a file.
pub fn objects_of<F: Workload>(alloc: Global, file: &F) -> Result<Objects, NoMemory>
    requires { IsSound (F.file file.now) }
    ensures kinds { IfOk result (λ x. AreOf x (shapes_of (F.file file.now).declarations)) }
    ensures type_of { IfOk result (λ x. IsTypeOf (shapes_of (F.file file.now).declarations) (⟦<Objects as TxType>⟧.meaning x)) }
    ensures taken { IfOk result (λ x. IsTaken (F.file file.now) (⟦<Objects as TxType>⟧.meaning x)) }
{
    let shapes = file.shapes(alloc)?;
    let objects = build(alloc, &shapes)?;
    Ok(objects)
}
