//! The worked cases of resources, over the public calls of `rpki_resources`. Expected values come from RFC 3779 and
//! from other programs.
#![tactic(auto)]

#[cfg(test)]
mod resources;
