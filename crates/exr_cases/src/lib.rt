//! Examples, each with what the rules and the mathematics say of it.
#![tactic(auto)]

#[cfg(test)]
mod logarithms;
#[cfg(test)]
mod quotients;
#[cfg(test)]
mod streams;
#[cfg(test)]
mod vectors;
