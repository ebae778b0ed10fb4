//! Tests of the desk of records by its public calls. There is nothing else here, so that the crates below are proved once.
#![tactic(auto)]

#[cfg(test)]
mod games;
#[cfg(test)]
mod moves;
#[cfg(test)]
mod plain;
#[cfg(test)]
mod rows;
#[cfg(test)]
mod tables;
