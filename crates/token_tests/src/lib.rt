//! The tests of tokens, places and kinds at their limits. The pages that each rule is tried on are the recorded cases.
#![tactic(auto)]

#[cfg(test)]
mod limits;
#[cfg(test)]
mod places;
#[cfg(test)]
mod plugins;
#[cfg(test)]
mod reading;
