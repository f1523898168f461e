//! What a table's slots hold: a ring for each place.

use proxy_laws::Mark;

/// A job that waits, with its mark.
pub struct Item<J> {
    pub mark: Mark,
    pub job: J,
}
