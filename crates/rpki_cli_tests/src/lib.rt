//! What a program writes, on a machine in memory of which chosen calls fail.
#![tactic(auto)]

#[cfg(test)]
mod outputs;
#[cfg(test)]
mod spread;
