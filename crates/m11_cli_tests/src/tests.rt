//! The outputs of whole assemblies, the statuses and lines of outcomes, and the results of chains.

mod assemblies;
mod chains;
mod outcomes;
