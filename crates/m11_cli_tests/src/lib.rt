//! Tests of what no case of the suite and no test of the program can show: the statuses and the lines of outcomes that no case has; whole
//! assemblies whose devices fail at each call, that read two different texts, or that are checked line by line; and whole chains in memory.
#![tactic(auto)]

#[cfg(test)]
mod tests;
