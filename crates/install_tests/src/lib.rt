//! Tests of what the scripts can't show of installations and of what changes one sector of what is installed.
#![tactic(auto)]

#[cfg(test)]
mod answers;
#[cfg(test)]
mod changes;
#[cfg(test)]
mod conf;
#[cfg(test)]
mod map;
#[cfg(test)]
mod pieces;
