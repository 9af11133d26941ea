//! A survey of a Minix volume is Ok exactly where the volume is sound: public functions with empty bodies, which no
//! code needs to call.
#![tactic(auto)]

mod laws;
