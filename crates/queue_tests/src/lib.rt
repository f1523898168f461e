//! Tests of the public calls of `proxy_queue`.
#![tactic(auto)]

#[cfg(test)]
mod beside;
#[cfg(test)]
mod counter;
#[cfg(test)]
mod lines;
mod parts;
#[cfg(test)]
mod queues;
#[cfg(test)]
mod rows;
#[cfg(test)]
mod scenes;
#[cfg(test)]
mod sending;
#[cfg(test)]
mod threads;
