//! Tests of the loader and of what it is made of: tables of boots.
#![tactic(auto)]

#[cfg(test)]
mod boot;
#[cfg(test)]
mod failures;
#[cfg(test)]
mod installation;
#[cfg(test)]
mod kernels;
#[cfg(test)]
mod keys;
#[cfg(test)]
mod lines;
#[cfg(test)]
mod refusals;
#[cfg(test)]
mod systems;
