//! Tests of planned maps, of their boots, and of what both are made of: tables of them.
#![tactic(auto)]

#[cfg(test)]
mod boots;
#[cfg(test)]
mod disks;
#[cfg(test)]
mod headers;
#[cfg(test)]
mod lists;
#[cfg(test)]
mod plans;
#[cfg(test)]
mod reads;
#[cfg(test)]
mod refusals;
