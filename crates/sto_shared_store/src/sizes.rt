//! Which objects can be built.
ghost use Rattle.std.specs.Prelude.{◌≡◌};
ghost use Rattle.sto_shared_store.specs.Plans.{has_room};

use sto_model::Shape;

/// Whether an object of the shape can be built.
pub(crate) fn is_fit(shape: &Shape) -> bool
    ensures { result ≡ has_room shape.now }
{
    let few = shape.part_count() <= u64::from(u32::MAX);
    match shape {
        Shape::Single(_) | Shape::Counter(_) | Shape::Array { .. } => true,
        Shape::Hash { buckets, places } => 0 < *buckets && few && *places <= u32::MAX / 2,
        Shape::Tree { leaves } => 0 < *leaves && few,
        Shape::Vector { .. } => few,
    }
}
