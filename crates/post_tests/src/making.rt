//! A target is made and taken down again.

use post_core::{make, unmake};
use std::alloc::AllocError;

#[test]
fn targets_are_made_and_unmade(rt: HostRuntime) -> Result<(), AllocError> {
    for (senders, places) in [(1, 1), (2, 4), (64, 1), (1, 256), (64, 256)] {
        let made = make::<u64>(rt.alloc(), 3, senders, places)?;
        unmake(made);
    }
    Ok(())
}
