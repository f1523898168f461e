//! Tests of the table of one target by its public calls.
#![tactic(auto)]

#[cfg(test)]
mod beside;
#[cfg(test)]
mod hostile;
#[cfg(test)]
mod making;
#[cfg(test)]
mod owning;
mod parts;
#[cfg(test)]
mod places;
#[cfg(test)]
mod records;
#[cfg(test)]
mod scenes;
#[cfg(test)]
mod sending;
