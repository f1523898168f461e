//! Tests of files by chunks by their public calls, as tables that were worked out by hand.
#![tactic(auto)]

#[cfg(test)]
mod command;
#[cfg(test)]
mod reads;
#[cfg(test)]
mod scenes;
#[cfg(test)]
mod sizes;
