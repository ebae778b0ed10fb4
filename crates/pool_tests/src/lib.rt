//! Tests of the pool, its rule, flats and cords by their public calls. There is nothing else here, so that the crates below are
//! proved once.
#![tactic(auto)]

#[cfg(test)]
mod calls;
#[cfg(test)]
mod changes;
#[cfg(test)]
mod filling;
#[cfg(test)]
mod flats;
#[cfg(test)]
mod marks;
#[cfg(test)]
mod queries;
#[cfg(test)]
mod ranges;
#[cfg(test)]
mod refusals;
#[cfg(test)]
mod releasers;
#[cfg(test)]
mod rules;
#[cfg(test)]
mod shapes;
#[cfg(test)]
mod slots;
#[cfg(test)]
mod steps;
#[cfg(test)]
mod threads;
#[cfg(test)]
mod tight;
#[cfg(test)]
mod trees;
