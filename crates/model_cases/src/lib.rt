//! Cases of the definitions of `lilo_model`, each a theorem that the checker computes: a definition that gave
//! something else would fail this crate. There is no code here.
//!
//! The values are from outside. The scripts in tools/ write the files in `proofs/` from the data beside them.
#![tactic(auto)]
