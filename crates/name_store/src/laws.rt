//! What a user may conclude from the definitions. The functions do nothing: each clause is a law.

ghost use Rattle.name_store.specs.EntryLaws.{ListsAreInOrder, AddfileEnters, AddlinkMakes, MakedirMakes, MountsStay, MoveMoves, OpeningsHaveTheirMounts, RemdirRemoves, RemfileRemoves, SameIsOneEntry};
ghost use Rattle.name_store.specs.IdLaws.{IdsAreNew, IdsRise, InsideIsClimbing};
ghost use Rattle.name_store.specs.Laws.{LinesNameEachOnce, OpeningsAreSound, RefusalsChangeNothing, StepsStaySound};

/// The tree before the first operation is sound.
pub fn openings_are_sound()
    ensures { OpeningsAreSound }
{}

/// Each operation leaves a sound tree sound: so no `move` makes a cycle.
pub fn steps_stay_sound()
    ensures { StepsStaySound }
{}

/// After an error, `same`, or what was only asked, the tree is as it was.
pub fn refusals_change_nothing()
    ensures { RefusalsChangeNothing }
{}

/// The lines of a sound tree are of its entries, each once.
pub fn lines_name_each_once()
    ensures { LinesNameEachOnce }
{}

/// What `makedir` answers to have made is an empty directory in the named one, and all else stays.
pub fn makedir_makes()
    ensures { MakedirMakes }
{}

/// What `addlink` answers to have made stands under its name, and all else stays.
pub fn addlink_makes()
    ensures { AddlinkMakes }
{}

/// A file that was entered stands under its name, and all else stays.
pub fn addfile_enters()
    ensures { AddfileEnters }
{}

/// What `remfile` answers to have removed is no more under its name, and all else stays.
pub fn remfile_removes()
    ensures { RemfileRemoves }
{}

/// A directory that was removed was empty and is no more, and all else stays.
pub fn remdir_removes()
    ensures { RemdirRemoves }
{}

/// What was moved stands under the new name and not under the old, and all else stays but an empty directory that it
/// replaced.
pub fn move_moves()
    ensures { MoveMoves }
{}

/// `same` is answered only where both names are one entry.
pub fn same_is_one_entry()
    ensures { SameIsOneEntry }
{}

/// The mounts of a tree are those of its opening, whatever was done to it.
pub fn mounts_stay()
    ensures { MountsStay }
{}

/// The mounts of an opening are those that it was given.
pub fn openings_have_their_mounts()
    ensures { OpeningsHaveTheirMounts }
{}

/// No directory had an id that is given, and no entry named it.
pub fn ids_are_new()
    ensures { IdsAreNew }
{}

/// No id is given twice: one that is given later is greater.
pub fn ids_rise()
    ensures { IdsRise }
{}

/// A directory is inside another, as `move` tests it, exactly where climbing leads from the one to the other.
pub fn inside_is_climbing()
    ensures { InsideIsClimbing }
{}

/// The names of a list rise in the order of their bytes.
pub fn lists_are_in_order()
    ensures { ListsAreInOrder }
{}
