//! A survey of a Minix volume, versions 1 and 2: the first thing that is wrong with it, or what is on it.
//!
//! All names are walked from the root, depth first, the entries of a directory in order. An inode that is come to for
//! the first time is judged by its bitmap bit and its depth, then its zones in the order of a walk, then the entries of
//! a directory. What was found stays: who owns a zone, how many names an inode has, which zones have numbers of zones.
//!
//! A survey takes memory for each zone and each inode that is in use, and for each name. It reads an inode once for
//! each of its names, and each block of a directory and each indirect zone once. The volume holds the sectors that were
//! read last, so that neighbouring inodes, and the bits of neighbouring zones, mostly cost one read.
#![tactic(auto)]

mod findings;
mod spot;
mod survey_fault;
mod tables;
mod walk;

pub use findings::Findings;
pub use survey_fault::SurveyFault;
pub use walk::survey;
