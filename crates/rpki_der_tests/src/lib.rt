//! The worked cases of DER, over the public calls of `rpki_der`. Expected values come from the standards, from worked
//! examples and from other programs.
#![tactic(auto)]

pub mod changed;
#[cfg(test)]
mod der;
pub mod hexadecimal;
pub mod kinds;
pub mod tables;
