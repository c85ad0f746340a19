//! The worked cases of what a validator does with certificates, lists and objects, over the public calls of
//! `rpki_valid`.
//! They are made by openssl, and each breaks one rule.
#![tactic(auto)]

#[cfg(test)]
mod by_size;
#[cfg(test)]
mod lists;
#[cfg(test)]
mod paths;
#[cfg(test)]
mod process;
#[cfg(test)]
mod revocation;
#[cfg(test)]
mod trust;
