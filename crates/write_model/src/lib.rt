//! The definitions that the promises of a writer of Minix volumes are said in: what is chosen for a new file, or why
//! none can be made.
//!
//! There is no code here: plain numbers, lists and records over the definitions of `lilo_model`. They are in a crate
//! of their own, so that a change of them leaves the proofs of the readers as they are.
#![tactic(auto)]
