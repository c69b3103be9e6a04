//! What a core is made of.
use std::alloc::Global;
use std::hash::RandomState;

/// Where memory comes from, and a seed for the hashes of series, which a target names.
#[derive(Clone, Copy)]
pub struct Means {
    pub alloc: Global,
    pub seed: RandomState,
}
