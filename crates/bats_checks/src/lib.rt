//! Tests of single calls of the libraries, above all of them, so that each library is proved without its tests: there is a file
//! a library in `tests/`. And an example for users of the libraries, `in_memory`.
#![tactic(auto)]

pub mod in_memory;
#[cfg(test)]
mod tests;
