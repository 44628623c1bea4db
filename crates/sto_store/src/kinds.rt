//! The objects of one kind, any number of them.
use sto_array::TArray;
use sto_box::TBox;
use sto_counter::TCounter;
use sto_hash::THash;
use sto_tree::TTree;
use sto_type::{Both, Many};
use sto_vector::TVector;

/// Boxes of one word.
pub type Boxes = Many<TBox<i64>>;

/// Counters.
pub type Counters = Many<TCounter>;

/// Arrays.
pub type Arrays = Many<TArray>;

/// Hash tables.
pub type Hashes = Many<THash>;

/// Ordered trees.
pub type Trees = Many<TTree>;

/// Vectors.
pub type Vectors = Many<TVector>;

/// The objects that have a part for their size: trees, and then vectors.
pub type Sized = Both<Trees, Vectors>;
