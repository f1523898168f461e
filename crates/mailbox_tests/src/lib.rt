//! Tests of the public calls of `mailbox`, with a runner that keeps a list of what it did.
#![tactic(auto)]

#[cfg(test)]
mod boxes;
mod events;
#[cfg(test)]
mod executing;
#[cfg(test)]
mod finishing;
#[cfg(test)]
mod memory;
#[cfg(test)]
mod pairs;
mod recorder;
#[cfg(test)]
mod recording;
#[cfg(test)]
mod records;
#[cfg(test)]
mod scenes;
#[cfg(test)]
mod sending;
