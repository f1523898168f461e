//! What a user may conclude from the definitions of worlds and events. The functions do nothing: each
//! clause is a law.

ghost use Rattle.proxy_laws.specs.Laws.{ClosingKeeps, LivesKeep, NotifyingKeeps, OpeningIsSound, ReferencesKeep, RunsKeepSound, ServingKeeps, WorldsAreReadInRange, WorldsAreWellFormed};
ghost use Rattle.proxy_laws.specs.OwnMarks.{OwnMarksAreListed};
ghost use Rattle.proxy_laws.specs.Promises.{JobsAreKept, MailHasLowest, NoSenderAfterClose, NothingIsLost, NothingWaitsOnceEmptied, NoticesFindRoom, PlacesComeFree, RecordsAreLawful};
ghost use Rattle.proxy_laws.specs.Unsound.{UnsoundWorlds};

/// The events of references and puts keep a world sound.
pub fn references_keep()
    ensures { ReferencesKeep }
{}

/// The events by which a sender notifies the owner keep a world sound.
pub fn notifying_keeps()
    ensures { NotifyingKeeps }
{}

/// The events by which the owner serves its target keep a world sound.
pub fn serving_keeps()
    ensures { ServingKeeps }
{}

/// The events by which the owner settles jobs and closes its target keep a world sound.
pub fn closing_keeps()
    ensures { ClosingKeeps }
{}

/// The events on the lives of places keep a world sound.
pub fn lives_keep()
    ensures { LivesKeep }
{}

/// A target with at least one sender is made sound.
pub fn opening_is_sound()
    ensures { OpeningIsSound }
{}

/// Worlds worked out by hand are not sound, one or more for each part of the invariant; and one is sound, in which an
/// idle sender has a turn.
pub fn unsound_worlds()
    ensures { UnsoundWorlds }
{}

/// A run leads from a sound world to a sound one.
pub fn runs_keep_sound()
    ensures { RunsKeepSound }
{}

/// A target is made well formed, and every event keeps it so.
pub fn worlds_are_well_formed()
    ensures { WorldsAreWellFormed }
{}

/// What is said of a world reads only its own senders and places.
pub fn worlds_are_read_in_range()
    ensures { WorldsAreReadInRange }
{}

/// Once the owner is closed no sender has or gets a reference, takes a turn, puts, swaps a note or adds a notice.
pub fn no_sender_after_close()
    ensures { NoSenderAfterClose }
{}

/// A free place has nothing waiting and no use and, while its target is not closed, no notice.
pub fn places_come_free()
    ensures { PlacesComeFree }
{}

/// A notice that may be added finds its place not in the mailbox.
pub fn notices_find_room()
    ensures { NoticesFindRoom }
{}

/// A mailbox with a notice has one lowest place.
pub fn mail_has_lowest()
    ensures { MailHasLowest }
{}

/// Where a job waits, somebody sees to it.
pub fn nothing_is_lost()
    ensures { NothingIsLost }
{}

/// Where a closed owner is at no place and its mailbox is empty, nothing waits.
pub fn nothing_waits_once_emptied()
    ensures { NothingWaitsOnceEmptied }
{}

/// A job keeps its mark and its start, and once it is settled its fate.
pub fn jobs_are_kept()
    ensures { JobsAreKept }
{}

/// A sender's own marks are those of a place that it put, each with the number of its job.
pub fn own_marks_are_listed()
    ensures { OwnMarksAreListed }
{}

/// A world whose jobs are all settled has its record, and that is a lawful one.
pub fn records_are_lawful()
    ensures { RecordsAreLawful }
{}
