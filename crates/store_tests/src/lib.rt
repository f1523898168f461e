//! Tests of the stores and of the ring by their public calls, as tables that were worked out by hand.
#![tactic(auto)]

#[cfg(test)]
mod files;
#[cfg(test)]
mod names;
#[cfg(test)]
mod ring;
