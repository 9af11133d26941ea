//! Tests of the crates of Minix volumes, by what they offer to others.
#![tactic(auto)]

#[cfg(test)]
mod calls;
#[cfg(test)]
mod creation;
#[cfg(test)]
mod disk;
#[cfg(test)]
mod layout;
#[cfg(test)]
mod search;
#[cfg(test)]
mod steps;
#[cfg(test)]
mod tree;
#[cfg(test)]
mod waste;
#[cfg(test)]
mod zones;
