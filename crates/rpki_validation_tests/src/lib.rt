//! Tests of validation over objects that openssl made, and the same with one thing changed: each step on its own.
#![tactic(auto)]

#[cfg(test)]
mod anchors;
#[cfg(test)]
mod authorities;
#[cfg(test)]
mod certificates;
pub mod files;
#[cfg(test)]
mod objects;
#[cfg(test)]
mod reasons;
pub mod repository;
#[cfg(test)]
mod walks;
