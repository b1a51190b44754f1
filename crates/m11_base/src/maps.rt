//! Maps and sets in the order in which their keys were inserted. Their contracts are those of the library's maps: neither a result
//! nor a request for memory depends on the seed.

use crate::seed::Seed;
use indexmap::{IndexMap, IndexSet};

/// A map from keys to values. `with_hasher` makes an empty one.
pub type SeededMap<K, V> = IndexMap<K, V, Seed>;

/// A set of keys. `with_hasher` makes an empty one.
pub type SeededSet<K> = IndexSet<K, Seed>;
