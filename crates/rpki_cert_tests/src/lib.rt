//! The worked cases of certificates, over the public calls of `rpki_cert` alone. The certificates are made by openssl,
//! and changed in a few octets where a rule is broken.
#![tactic(auto)]

pub mod certificates;
#[cfg(test)]
mod profiles;
pub mod provider;
#[cfg(test)]
mod reading;
