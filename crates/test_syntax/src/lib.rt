//! Tests of the language of grammars, of the parser and of the views of what it reads, by their public calls.
#![tactic(auto)]

#[cfg(test)]
mod deep;
#[cfg(test)]
mod ends;
#[cfg(test)]
mod errors;
#[cfg(test)]
mod forms;
#[cfg(test)]
mod heads;
#[cfg(test)]
mod lists;
#[cfg(test)]
mod members;
#[cfg(test)]
mod shapes;
#[cfg(test)]
mod sites;
#[cfg(test)]
mod texts;
#[cfg(test)]
mod told;
#[cfg(test)]
mod turns;
