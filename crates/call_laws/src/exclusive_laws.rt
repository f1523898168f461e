//! What a user may conclude of `open` with `creat` and `excl`. The functions do nothing: each clause is a law.

ghost use Rattle.call_laws.specs.ExclusiveLaws.{EntriesAreTaken, ExclusivesMake, ExclusivesRefuse};

/// A call with `creat` and `excl` that replies a number has itself given a file its entry, whatever others did.
pub fn exclusives_make()
    ensures { ExclusivesMake }
{}

/// Where a file got an entry every other call finds the name taken, until the entry is removed or moved away.
pub fn entries_are_taken()
    ensures { EntriesAreTaken }
{}

/// Where something stands under the name, also a link, such a call replies `EEXIST` and changes nothing.
pub fn exclusives_refuse()
    ensures { ExclusivesRefuse }
{}
