//! A runner of the target with number 0 that keeps a list of what it did.

use crate::events::{Event, Kept};
use std::collections::VecDeque;

/// It holds each job of one number, and finishes the others.
#[derive(Drop)]
pub struct Recorder {
    pub hold: u64,
    /// After so many jobs there is no room for the next, once.
    pub lean: Option<u64>,
    /// False once there was no room for an event.
    pub complete: bool,
    pub log: Vec<Event>,
    pub kept: VecDeque<Kept>,
}
