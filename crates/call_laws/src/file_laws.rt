//! What a user may conclude of the bytes of files, and of offsets. The functions do nothing: each clause is a law.

ghost use Rattle.call_laws.specs.FileLaws.{CopiesShare, CutsKeepTheRest, ReadsMoveOffsets, WritesAreRead};

/// What was written is what is read there, by each number that may read the file, and all else is as it was. A gap is
/// zeros.
pub fn writes_are_read()
    ensures { WritesAreRead }
{}

/// A read is of the bytes from the offset on, and moves the offset behind them.
pub fn reads_move_offsets()
    ensures { ReadsMoveOffsets }
{}

/// A copy of a number is of one description with it: each goes on where the other has read to.
pub fn copies_share()
    ensures { CopiesShare }
{}

/// `ftruncate` keeps what is below the new size. A growth is zeros.
pub fn cuts_keep_the_rest()
    ensures { CutsKeepTheRest }
{}
