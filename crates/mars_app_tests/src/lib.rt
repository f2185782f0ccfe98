//! Tests of `mars_app` by its public calls.
#![tactic(auto)]

#[cfg(test)]
mod tests;
