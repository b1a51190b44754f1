//! Lines and unfoldings that no case of the suite shows: tokens, labels and fields of instructions with their columns, a device that
//! fails, sets of flags, and how far the unfolder goes before a limit. This crate has only tests; they use the public items of the crates
//! that it depends on. Expected values were worked out by hand from the language manual.
#![tactic(auto)]

#[cfg(test)]
mod tests;
