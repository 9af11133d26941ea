//! Cases of the laws of planned maps: disks on which their premises are met, each a theorem that the checker computes.
//! There is no code here, and no crate uses it.
#![tactic(auto)]
