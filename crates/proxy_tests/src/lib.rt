//! Tests of the world of one proxying target.
#![tactic(auto)]

#[cfg(test)]
mod refusals;
#[cfg(test)]
mod scenes;
#[cfg(test)]
mod stories;
#[cfg(test)]
mod walks;
