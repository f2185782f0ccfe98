//! Tests of `mars_core` through its public functions.
#![tactic(auto)]

#[cfg(test)]
mod tests;
