//! The worked cases of objects, over the public calls of `rpki_objects` alone. The objects
//! are made by openssl, and broken one rule each.
#![tactic(auto)]

pub mod objects;
#[cfg(test)]
mod strictness;
#[cfg(test)]
mod types;
#[cfg(test)]
mod written;
