//! Trust anchor locators, with a key that openssl made.
#![tactic(auto)]

#[cfg(test)]
mod locators;
