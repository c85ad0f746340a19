//! The worked cases of times, over the public calls of `rpki_time`. Expected values come from the standards, from
//! worked examples and from other programs.
#![tactic(auto)]

#[cfg(test)]
mod time;
