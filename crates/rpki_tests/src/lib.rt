//! The worked cases of keys, algorithms and X.509, over the public calls of `rpki` alone. Expected values come from the
//! standards, from worked examples and from other programs. Those of the crates below have crates of their own.
#![tactic(auto)]

#[cfg(test)]
mod tests;
