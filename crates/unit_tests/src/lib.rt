//! The tests of the libraries below `sheet`, by subject.
#![tactic(auto)]

#[cfg(test)]
mod classes;
#[cfg(test)]
mod names;
#[cfg(test)]
mod positions;
#[cfg(test)]
mod reports;
#[cfg(test)]
mod texts;
#[cfg(test)]
mod utf8;
