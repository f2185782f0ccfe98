//! Test cases of `redcode_asm`, through its public calls.
#![tactic(auto)]

#[cfg(test)]
mod assembler;
#[cfg(test)]
mod formula;
#[cfg(test)]
mod lines;
#[cfg(test)]
mod load;
