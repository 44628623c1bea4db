//! What the records of attempts tell of the view of their pass, and what a run of one transaction adds to it.
//!
//! The definitions stand in `specs/`.
#![tactic(auto)]
