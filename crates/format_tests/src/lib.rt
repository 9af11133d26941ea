//! Tests of bytes, streams, disks, addresses and the texts of a configuration, by what their crates offer to others.
#![tactic(auto)]

#[cfg(test)]
mod addresses;
#[cfg(test)]
mod disks;
#[cfg(test)]
mod files;
#[cfg(test)]
mod numbers;
#[cfg(test)]
mod parts;
#[cfg(test)]
mod real;
#[cfg(test)]
mod stops;
#[cfg(test)]
mod streams;
#[cfg(test)]
mod tokens;
#[cfg(test)]
mod values;
