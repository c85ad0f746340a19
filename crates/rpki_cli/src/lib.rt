//! A program's edge: what it writes, and where, under clauses.
//!
//! What a program asks of its machine are the methods of [Machine](machine::Machine). Their laws speak of a
//! [world](../specs/World.antt): files by their names, two streams, and the calls that have failed. A machine in memory
//! has these laws; of a host nothing is proved: what its calls do is trusted.
#![tactic(auto)]

pub mod give;
pub mod host;
pub mod machine;
pub mod memory;
pub mod put;
pub mod ready;
mod record;
pub mod spread;
