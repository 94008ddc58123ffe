//! Unit tests of the kernel and the derived rules, as rows in the notation, and of calls on types and terms that the program doesn't make. They stand in a
//! crate of their own, since a crate with tests is proved twice.
#![tactic(auto)]

#[cfg(test)]
mod bases_tests;
#[cfg(test)]
mod calls_tests;
#[cfg(test)]
mod rules_tests;
#[cfg(test)]
mod shared_tests;
#[cfg(test)]
mod substitution_tests;
#[cfg(test)]
mod written;
