//! What a store is to hold.
ghost use Rattle.std.specs.Prelude.{◌≡◌, [], length, IfOk, IfErr};
ghost use Rattle.std.specs.List.{All};
ghost use Rattle.sto_model.specs.declared.shape.Shape.TheVariants.{Single, Counter, Array, Hash, Tree, Vector};
ghost use Rattle.sto_model.specs.Objects.{machines_of};
ghost use Rattle.sto_shared_store.specs.Refusals.{IsCause};
ghost use Rattle.sto_library.specs.Planned.{HasPlanned};

use crate::store::SharedStore;
use std::alloc::Global;
use sto_action::{ArrayId, BoxId, CounterId, HashId, TreeId, VectorId};
use sto_model::Shape;
use sto_shared_store::{OpenError, OpenedStore, PlanError};
use sto_store::Objects;
use sto_type::TxType;

/// The objects that a store is to hold: first its boxes, then counters, arrays, hash tables, trees and vectors.
#[derive(Drop)]
pub struct Schema {
    pub objects: sto_shared_store::ObjectPlan,
}

impl Schema {
    /// No object.
    pub fn new(alloc: Global) -> Schema
        ensures { result.objects ≡ [] }
    {
        Schema {
            objects: sto_shared_store::ObjectPlan::new(alloc),
        }
    }

    /// Adds a box that holds this value.
    pub fn boxed(&mut self, value: i64) -> Result<BoxId, PlanError>
        ensures { HasPlanned (Single value) (λ id. id.number) self.old.objects self.new.objects result }
    {
        match self.objects.add(Shape::Single(value)) {
            Ok(number) => Ok(BoxId { number }),
            Err(error) => Err(error),
        }
    }

    /// Adds a counter that holds this value.
    pub fn counter(&mut self, value: i64) -> Result<CounterId, PlanError>
        ensures { HasPlanned (Counter value) (λ id. id.number) self.old.objects self.new.objects result }
    {
        match self.objects.add(Shape::Counter(value)) {
            Ok(number) => Ok(CounterId { number }),
            Err(error) => Err(error),
        }
    }

    /// Adds an array with this value in each of its places.
    pub fn array(&mut self, len: u32, value: i64) -> Result<ArrayId, PlanError>
        ensures { HasPlanned (Array len value) (λ id. id.number) self.old.objects self.new.objects result }
    {
        match self.objects.add(Shape::Array { len, value }) {
            Ok(number) => Ok(ArrayId { number }),
            Err(error) => Err(error),
        }
    }

    /// Adds a hash table without keys, with so many places in each of its buckets.
    pub fn hash(&mut self, buckets: u32, places: u32) -> Result<HashId, PlanError>
        ensures { HasPlanned (Hash buckets places) (λ id. id.number) self.old.objects self.new.objects result }
    {
        match self.objects.add(Shape::Hash { buckets, places }) {
            Ok(number) => Ok(HashId { number }),
            Err(error) => Err(error),
        }
    }

    /// Adds a tree without keys, which has room for four keys in each of its leaves.
    pub fn tree(&mut self, leaves: u32) -> Result<TreeId, PlanError>
        ensures { HasPlanned (Tree leaves) (λ id. id.number) self.old.objects self.new.objects result }
    {
        match self.objects.add(Shape::Tree { leaves }) {
            Ok(number) => Ok(TreeId { number }),
            Err(error) => Err(error),
        }
    }

    /// Adds a vector without values, which has room for so many.
    pub fn vector(&mut self, capacity: u32) -> Result<VectorId, PlanError>
        ensures { HasPlanned (Vector capacity) (λ id. id.number) self.old.objects self.new.objects result }
    {
        match self.objects.add(Shape::Vector { capacity }) {
            Ok(number) => Ok(VectorId { number }),
            Err(error) => Err(error),
        }
    }

    /// Opens a store of these objects, with so many workers, from 1 to 65,536.
    pub fn open(self, alloc: Global, workers: u32) -> Result<SharedStore<Objects>, OpenError>
        ensures shapes { IfOk result (λ store. store.shapes ≡ self.objects) }
        ensures machines { IfOk result (λ store. (⟦<Objects as TxType>⟧.meaning store.words.ty).machines ≡ machines_of self.objects) }
        ensures fresh { IfOk result (λ store. All (λ v. v.entries ≡ []) store.views) }
        ensures workers { IfOk result (λ store. (length store.views ≡ workers) × (store.words.shared.table.shared.key.passes ≡ workers)) }
        ensures cause { IfErr result (λ error. IsCause error workers) }
    {
        let Schema { objects } = self;
        match objects.open(alloc, workers) {
            Ok(OpenedStore { store, workers }) => Ok(SharedStore::new(
                store,
                objects.into_shapes(),
                workers,
            )),
            Err(error) => Err(error),
        }
    }
}
