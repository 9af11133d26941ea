//! The definitions that the promises of a boot loader in LILO's manner are said in: what disks hold, what a
//! boot of them reads, shows and loads, and what the commands answer.
//!
//! There is no code here, and no other crate below: plain numbers, lists and records. A crate with a type of
//! its own says which plain value one of its values represents.
#![tactic(auto)]
