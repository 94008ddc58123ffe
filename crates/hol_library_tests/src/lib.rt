//! Unit tests of what the program doesn't show: calls of the crates above the prelude that it doesn't make, most of them copies of values. They stand in a
//! crate of their own, since a crate with tests is proved twice.
#![tactic(auto)]

#[cfg(test)]
mod copies_tests;
#[cfg(test)]
mod names_tests;
#[cfg(test)]
mod reductions_tests;
#[cfg(test)]
mod texts_tests;
#[cfg(test)]
mod written_tests;
