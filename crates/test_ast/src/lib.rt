//! Tests of parsed sources and their parts, by their public calls.
#![tactic(auto)]

#[cfg(test)]
mod comments;
#[cfg(test)]
mod diagnostics;
#[cfg(test)]
mod exports;
#[cfg(test)]
mod lexing;
#[cfg(test)]
mod parsed;
#[cfg(test)]
mod printing;
#[cfg(test)]
mod programs;
#[cfg(test)]
mod references;
#[cfg(test)]
mod scopes;
#[cfg(test)]
mod texts;
