//! Test cases of `redcode_text`, through its public calls.
#![tactic(auto)]

#[cfg(test)]
mod expansion;
#[cfg(test)]
mod expression;
#[cfg(test)]
mod lexer;
