//! Test cases of `mars_match`, through its public calls.
#![tactic(auto)]

#[cfg(test)]
mod tests;
