//! Tests with known values of the libraries that the calculator uses, by which their definitions can be judged: values
//! that no deck prints.
#![tactic(auto)]

#[cfg(test)]
mod arithmetic;
#[cfg(test)]
mod decimals;
#[cfg(test)]
mod display;
#[cfg(test)]
mod fields;
#[cfg(test)]
mod judge;
#[cfg(test)]
mod lister;
#[cfg(test)]
mod memory;
#[cfg(test)]
mod pages;
#[cfg(test)]
mod program_memory;
#[cfg(test)]
mod words;
