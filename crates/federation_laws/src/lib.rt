//! That what is federated reads back: a law over all journals.
//! `specs/Reads.antt` says what is read.
#![tactic(auto)]

pub mod laws;

pub use laws::federation_reads;
