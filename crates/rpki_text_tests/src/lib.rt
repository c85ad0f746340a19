//! The worked cases of texts, over the public calls of `rpki_text`. Expected values come from the standards, from
//! worked examples and from other programs.
#![tactic(auto)]

#[cfg(test)]
mod text;
