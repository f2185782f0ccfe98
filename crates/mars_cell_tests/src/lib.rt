//! Tests of `mars_cell` through its public functions.
#![tactic(auto)]

#[cfg(test)]
mod tests;
