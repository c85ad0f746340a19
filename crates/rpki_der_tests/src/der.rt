//! Worked cases: expected octets and errors come from X.690 and from worked examples.

mod capture;
mod composed;
mod contents;
mod encoders;
mod headers;
mod index;
mod keeping;
mod objects;
mod readers;
mod verbs;
mod walks;
