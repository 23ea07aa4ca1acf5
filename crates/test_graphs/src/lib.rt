//! Tests of graphs and of the program, by their public calls.
#![tactic(auto)]

#[cfg(test)]
mod arrivals;
#[cfg(test)]
mod batches;
pub mod endless;
#[cfg(test)]
mod graphs;
#[cfg(test)]
mod numbers;
#[cfg(test)]
mod orders;
#[cfg(test)]
mod runs;
#[cfg(test)]
mod vendored;
