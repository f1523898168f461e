//! What a user may conclude from the definitions. The functions do nothing: each clause is a law.

ghost use Rattle.file_store.specs.DescriptorLaws.{CopiesShare, CurrentIsSetLast, NamesAreGiven};
ghost use Rattle.file_store.specs.Laws.{DescriptionsHaveFiles, IdsAreNew, OffsetsAreApart, OpeningsAreSound, RefusalsChangeNothing, StepsStaySound};
ghost use Rattle.file_store.specs.WriteLaws.{CutsKeepTheRest, WritesAreRead};

/// A copy of a number names what that number names, so both are of one description and its offset.
pub fn copies_share()
    ensures { CopiesShare }
{}

/// What a number names was asked for by the operation, or was named by some number before it.
pub fn names_are_given()
    ensures { NamesAreGiven }
{}

/// The current directory is the one that was set last, and what becomes of the numbers leaves it as it is.
pub fn current_is_set_last()
    ensures { CurrentIsSetLast }
{}

/// A group before the first operation is sound.
pub fn openings_are_sound()
    ensures { OpeningsAreSound }
{}

/// Each operation leaves a sound group sound: so no file goes that is open, and sizes stay within their limits.
pub fn steps_stay_sound()
    ensures { StepsStaySound }
{}

/// In a sound group each description is found with its file.
pub fn descriptions_have_files()
    ensures { DescriptionsHaveFiles }
{}

/// After an error, what was only asked, or a write of nothing, the group is as it was.
pub fn refusals_change_nothing()
    ensures { RefusalsChangeNothing }
{}

/// An operation on one description leaves each other one as it was, also where both are of one file.
pub fn offsets_are_apart()
    ensures { OffsetsAreApart }
{}

/// No id is used again.
pub fn ids_are_new()
    ensures { IdsAreNew }
{}

/// What was written is what is read there, and all else is as it was. A gap is zeros.
pub fn writes_are_read()
    ensures { WritesAreRead }
{}

/// A cut and a truncation keep what is below the new size. A growth is zeros.
pub fn cuts_keep_the_rest()
    ensures { CutsKeepTheRest }
{}
