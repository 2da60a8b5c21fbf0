//! Examples of trips: what is printed of bytes that are short, and of bytes that are more than enough.
#![tactic(auto)]

#[cfg(test)]
mod trips;
