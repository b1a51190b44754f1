//! Tests of the parts that commands are made of, for what no command shows: feeds and sinks, instructions, names, blocks, records, and
//! texts of objects; lines of listings that no source has; whole links whose devices fail at each of their calls, the number of texts held,
//! second passes that read other bytes, and bottoms that no option allows; and the machine after a tape that fails, and between calls.
//! They use only what the libraries export. Everything else that commands write is in the cases of `m11_suite`, and limits that only long
//! files exceed are in the tests of the program. Expected values were worked out by hand from the manuals.
#![tactic(auto)]

#[cfg(test)]
mod tests;
