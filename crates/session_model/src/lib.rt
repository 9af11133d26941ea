//! The definitions that are needed to speak of every list of commands and stops: what an image's state is, what a
//! command makes of it by its answer, and a session, in which each command begins on any image that the one before
//! left.
//!
//! There is no code here: plain records and relations over the definitions of `lilo_model` and `ldisk_model`. They are
//! in a crate of their own, so that a change of them leaves the proofs of the crates below as they are.
#![tactic(auto)]
