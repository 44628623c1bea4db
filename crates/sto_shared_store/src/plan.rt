//! What a store is to hold.
ghost use Rattle.std.specs.Prelude.{◌≡◌, [], ◌∷◌, ◌++◌, length, IfOk, IfErr, OnOk, OnErr};
ghost use Rattle.sto_model.specs.declared.call.Call.{Call};
ghost use Rattle.sto_model.specs.Objects.{machines_of, IsTaken};
ghost use Rattle.sto_store.specs.StoresLaw.{IsFitting};
ghost use Rattle.sto_shared_store.specs.Plans.{IsPlan, IsReason, CanStand};

use crate::plan_error::PlanError;
use crate::sizes::is_fit;
use std::alloc::Global;
use std::marker::Model;
use sto_model::{Shape, Shapes};
use sto_part::NoMemory;
use sto_store::{Objects, build};
use sto_type::TxType;

/// The objects that a store is to hold, in the order of their kinds: boxes, counters, arrays, hash tables, trees and vectors.
///
/// Contracts see their shapes. What was planned can be opened: sizes and numbers that would not do are refused when they are added.
#[derive(Drop)]
pub struct ObjectPlan {
    shapes: Shapes,
    // How many parts they have together.
    parts: u32,
    // Where the last kind stands in the order of kinds.
    last: u8,
}

impl Model for ObjectPlan {
    ghost use Rattle.std.specs.Prelude.{◌≡◌, List, sum_by};
    ghost use Rattle.sto_model.specs.Sizes.{part_count};
    ghost use Rattle.sto_model.specs.declared.shape.Shape.{Shape};
    ghost use Rattle.sto_shared_store.specs.Plans.{IsPlan, last_rank};

    ghost Value = { List Shape };

    ghost view = { λ p. p.shapes.items };

    ghost invariant = { λ p. IsPlan p.shapes.items × (p.parts ≡ sum_by part_count p.shapes.items) × (p.last ≡ last_rank p.shapes.items) };
}

impl ObjectPlan {
    /// No object.
    pub fn new(alloc: Global) -> ObjectPlan
        ensures { result ≡ [] }
    {
        ObjectPlan {
            shapes: Shapes::new(alloc),
            parts: 0,
            last: 0,
        }
    }

    /// How many objects there are.
    pub fn len(&self) -> u32
        ensures { result ≡ length self.now }
    {
        self.shapes.len()
    }

    /// Their shapes, by number.
    pub fn into_shapes(self) -> Shapes
        ensures { result.items ≡ self }
    {
        let ObjectPlan { shapes, .. } = self;
        shapes
    }

    /// Adds an object, and answers its number: how many were added before.
    pub fn add(&mut self, shape: Shape) -> Result<u32, PlanError>
        ensures number { IfOk result (λ number. number ≡ length self.old) }
        ensures added { OnOk result (self.new ≡ self.old ++ shape ∷ []) }
        ensures stands { OnOk result (CanStand self.old shape) }
        ensures kept { OnErr result (self.new ≡ self.old) }
        ensures reason { IfErr result (λ error. IsReason error self.old shape) }
    {
        let kind = shape.rank();
        if kind < self.last {
            return Err(PlanError::OutOfOrder);
        }
        if !is_fit(&shape) {
            return Err(PlanError::NoRoom);
        }
        let count = shape.part_count();
        let number = self.shapes.len();
        if u64::from(u32::MAX - self.parts) < count || number == u32::MAX {
            return Err(PlanError::TooMany);
        }
        match self.shapes.push(shape) {
            Ok(()) => {
                self.parts += count as u32;
                self.last = kind;
                Ok(number)
            }
            Err(_) => Err(PlanError::NoMemory),
        }
    }

    // The planned objects.
    pub(crate) fn objects(&self, alloc: Global) -> Result<Objects, NoMemory>
        ensures machines { IfOk result (λ x. (⟦<Objects as TxType>⟧.meaning x).machines ≡ machines_of self.now) }
        ensures takes { IfOk result (λ x. (call : Call) → IsTaken self.now call → IsFitting call
            → (⟦<Objects as TxType>⟧.meaning x).takes call) }
    {
        built(alloc, &self.shapes)
    }
}

// The objects of these shapes.
fn built(alloc: Global, shapes: &Shapes) -> Result<Objects, NoMemory>
    requires { IsPlan shapes.now.items }
    ensures machines { IfOk result (λ x. (⟦<Objects as TxType>⟧.meaning x).machines ≡ machines_of shapes.now.items) }
    ensures takes { IfOk result (λ x. (call : Call) → IsTaken shapes.now.items call → IsFitting call
        → (⟦<Objects as TxType>⟧.meaning x).takes call) }
{
    build(alloc, shapes)
}
