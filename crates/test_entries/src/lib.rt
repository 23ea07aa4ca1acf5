//! Tests of entries and resolution, by their public calls.
#![tactic(auto)]

#[cfg(test)]
mod callers;
#[cfg(test)]
mod entries;
#[cfg(test)]
mod lines;
#[cfg(test)]
mod resolution;
