//! Tests of the texts and of whole runs by their public calls, as tables that were worked out by hand.
#![tactic(auto)]

#[cfg(test)]
use std::alloc::{AllocError, Global};

#[cfg(test)]
mod generated;
#[cfg(test)]
mod solo;
#[cfg(test)]
mod texts;
#[cfg(test)]
mod traces;

/// A text with one piece of it repeated.
#[cfg(test)]
fn repeated(
    alloc: Global,
    head: &str,
    piece: &str,
    count: usize,
    tail: &str,
) -> Result<String, AllocError> {
    let mut text = String::from_str(alloc, head)?;
    for _ in 0..count {
        text.push_str(piece)?;
    }
    text.push_str(tail)?;
    Ok(text)
}
