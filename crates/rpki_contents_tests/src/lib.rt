//! The worked cases of what signed objects contain, over the public calls of `rpki_contents` alone. Expected values
//! come from openssl, from RFCs and from python's standard library.
#![tactic(auto)]

#[cfg(test)]
mod encoding;
#[cfg(test)]
mod manifest;
#[cfg(test)]
mod providers;
#[cfg(test)]
mod route_origins;
