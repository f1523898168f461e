//! Tests of cells under turns by their public calls.
#![tactic(auto)]

#[cfg(test)]
mod beside;
mod counter;
#[cfg(test)]
mod replay;
#[cfg(test)]
mod scenes;
#[cfg(test)]
mod stamps;
