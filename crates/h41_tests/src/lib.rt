//! Tests of the bench, of what no contract states: the label cache, a deck at each size of memory, and tasks of the
//! program over streams that deliver a few bytes per call and fail. Tests that the program itself can run are in the
//! repository's folder `rows`.
#![tactic(auto)]

#[cfg(test)]
mod arguments;
#[cfg(test)]
mod decks;
#[cfg(test)]
mod ends;
#[cfg(test)]
mod judge;
#[cfg(test)]
mod libraries;
#[cfg(test)]
mod pieces;
#[cfg(test)]
mod program;
#[cfg(test)]
mod serving;
#[cfg(test)]
mod sizes;
#[cfg(test)]
mod watched;
