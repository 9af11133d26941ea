//! The definitions that the promises of `ldisk` are said in: what its arguments ask for, what each command answers, and
//! what the disks hold then.
//!
//! There is no code here: plain numbers, lists and records over the definitions of `lilo_model` and `write_model`. They
//! are in a crate of their own, so that a change of them leaves the proofs of the crates below as they are.
#![tactic(auto)]
