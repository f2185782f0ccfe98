//! Tests of `mars_session` by its public calls.
#![tactic(auto)]

#[cfg(test)]
mod tests;
