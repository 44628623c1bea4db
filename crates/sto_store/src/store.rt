//! The store of shapes.
ghost use Rattle.std.specs.Prelude.{◌≡◌, ◌<◌, ◌^◌, length, map, sum_by, IfOk};
ghost use Rattle.sto_type.specs.Meaning.{IsLawful};
ghost use Rattle.sto_type.specs.Joined.{all_joined};
ghost use Rattle.sto_model.specs.Objects.{IsTaken};
ghost use Rattle.sto_model.specs.Sizes.{part_count};
ghost use Rattle.sto_model.specs.declared.call.Call.{Call};
ghost use Rattle.sto_store.specs.StoresLaw.{IsFitting};
ghost use Rattle.sto_model.specs.declared.shape.Shape.TheVariants.{Single, Counter, Array, Hash, Tree, Vector};
ghost use Rattle.sto_store.specs.Stores.{means, means_of, of_kind, AreFit, AreInOrder, AreKinds, AreSized, AreWide};

use crate::kinds::{Arrays, Boxes, Counters, Hashes, Sized, Trees, Vectors};
use crate::objects::Objects;
use crate::wide::Wide;
use std::alloc::Global;
use sto_array::TArray;
use sto_box::TBox;
use sto_counter::TCounter;
use sto_hash::THash;
use sto_model::{Shape, Shapes};
use sto_part::NoMemory;
use sto_tree::TTree;
use sto_type::{Both, Many, TxType};
use sto_vector::TVector;

/// The objects of these shapes, each kind in the order of the shapes.
pub fn build(alloc: Global, shapes: &Shapes) -> Result<Objects, NoMemory>
    requires fit { AreFit shapes.now.items }
    requires parts { sum_by part_count shapes.now.items < 2 ^ 32 }
    ensures lawful { IfOk result (λ s. IsLawful (means shapes.now.items)) }
    ensures takes { IfOk result (λ s. AreInOrder shapes.now.items → (call : Call) → IsTaken shapes.now.items call → IsFitting call
        → (⟦<Objects as TxType>⟧.meaning s).takes call) }
    ensures kinds { IfOk result (λ s. AreKinds (map (λ x. Single x.first) s.store.first) (map (λ x. Counter x.first) s.store.second.first)
        (map (λ x. Array x.len x.first) s.store.second.second.kinds.first)
        (map (λ x. Hash x.buckets x.places) s.store.second.second.kinds.second.first)
        (map (λ x. Tree x.leaves) s.store.second.second.kinds.second.second.first)
        (map (λ x. Vector x.capacity) s.store.second.second.kinds.second.second.second) shapes.now.items) }
{
    let all = shapes.as_slice();
    let boxes = build_boxes(alloc, all)?;
    let counters = build_counters(alloc, all)?;
    let wide = build_wide(alloc, all)?;
    Objects::new(alloc, Both::new(boxes, Both::new(counters, wide)))
}

fn build_wide(alloc: Global, shapes: &[Shape]) -> Result<Wide, NoMemory>
    requires few { length shapes.now < 2 ^ 32 }
    requires fit { AreFit shapes.now }
    requires parts { sum_by part_count shapes.now < 2 ^ 32 }
    ensures { IfOk result (λ w. AreWide (map (λ x. Array x.len x.first) w.kinds.first)
        (map (λ x. Hash x.buckets x.places) w.kinds.second.first) (map (λ x. Tree x.leaves) w.kinds.second.second.first)
        (map (λ x. Vector x.capacity) w.kinds.second.second.second) shapes.now) }
{
    let arrays = build_arrays(alloc, shapes)?;
    let hashes = build_hashes(alloc, shapes)?;
    let sized = build_sized(alloc, shapes)?;
    Ok(Wide {
        kinds: Both::new(arrays, Both::new(hashes, sized)),
    })
}

fn build_sized(alloc: Global, shapes: &[Shape]) -> Result<Sized, NoMemory>
    requires few { length shapes.now < 2 ^ 32 }
    requires fit { AreFit shapes.now }
    requires parts { sum_by part_count shapes.now < 2 ^ 32 }
    ensures { IfOk result (λ w. AreSized (map (λ x. Tree x.leaves) w.first) (map (λ x. Vector x.capacity) w.second) shapes.now) }
{
    let trees = build_trees(alloc, shapes)?;
    let vectors = build_vectors(alloc, shapes)?;
    Ok(Both::new(trees, vectors))
}

fn build_boxes(alloc: Global, shapes: &[Shape]) -> Result<Boxes, NoMemory>
    requires few { length shapes.now < 2 ^ 32 }
    requires parts { length (all_joined (means_of 0 shapes.now)).widths < 2 ^ 32 }
    ensures { IfOk result (λ m. map (λ x. Single x.first) m ≡ of_kind 0 shapes.now) }
{
    let mut made = Many::new(alloc);
    for shape in shapes {
        if let Shape::Single(value) = shape {
            made.push(TBox::new(value))?;
        }
    }
    Ok(made)
}

fn build_counters(alloc: Global, shapes: &[Shape]) -> Result<Counters, NoMemory>
    requires few { length shapes.now < 2 ^ 32 }
    requires parts { length (all_joined (means_of 1 shapes.now)).widths < 2 ^ 32 }
    ensures { IfOk result (λ m. map (λ x. Counter x.first) m ≡ of_kind 1 shapes.now) }
{
    let mut made = Many::new(alloc);
    for shape in shapes {
        if let Shape::Counter(value) = shape {
            made.push(TCounter::new(*value))?;
        }
    }
    Ok(made)
}

fn build_arrays(alloc: Global, shapes: &[Shape]) -> Result<Arrays, NoMemory>
    requires few { length shapes.now < 2 ^ 32 }
    requires parts { length (all_joined (means_of 2 shapes.now)).widths < 2 ^ 32 }
    ensures { IfOk result (λ m. map (λ x. Array x.len x.first) m ≡ of_kind 2 shapes.now) }
{
    let mut made = Many::new(alloc);
    for shape in shapes {
        if let Shape::Array { len, value } = shape {
            made.push(TArray::new(*len, *value))?;
        }
    }
    Ok(made)
}

fn build_hashes(alloc: Global, shapes: &[Shape]) -> Result<Hashes, NoMemory>
    requires few { length shapes.now < 2 ^ 32 }
    requires fit { AreFit shapes.now }
    requires parts { length (all_joined (means_of 3 shapes.now)).widths < 2 ^ 32 }
    ensures { IfOk result (λ m. map (λ x. Hash x.buckets x.places) m ≡ of_kind 3 shapes.now) }
{
    let mut made = Many::new(alloc);
    for shape in shapes {
        if let Shape::Hash { buckets, places } = shape {
            made.push(THash::new(*buckets, *places))?;
        }
    }
    Ok(made)
}

fn build_trees(alloc: Global, shapes: &[Shape]) -> Result<Trees, NoMemory>
    requires few { length shapes.now < 2 ^ 32 }
    requires fit { AreFit shapes.now }
    requires parts { length (all_joined (means_of 4 shapes.now)).widths < 2 ^ 32 }
    ensures { IfOk result (λ m. map (λ x. Tree x.leaves) m ≡ of_kind 4 shapes.now) }
{
    let mut made = Many::new(alloc);
    for shape in shapes {
        if let Shape::Tree { leaves } = shape {
            made.push(TTree::new(*leaves))?;
        }
    }
    Ok(made)
}

fn build_vectors(alloc: Global, shapes: &[Shape]) -> Result<Vectors, NoMemory>
    requires few { length shapes.now < 2 ^ 32 }
    requires fit { AreFit shapes.now }
    requires parts { length (all_joined (means_of 5 shapes.now)).widths < 2 ^ 32 }
    ensures { IfOk result (λ m. map (λ x. Vector x.capacity) m ≡ of_kind 5 shapes.now) }
{
    let mut made = Many::new(alloc);
    for shape in shapes {
        if let Shape::Vector { capacity } = shape {
            made.push(TVector::new(*capacity))?;
        }
    }
    Ok(made)
}
