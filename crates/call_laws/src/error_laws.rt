//! What holds of calls that fail. The functions do nothing: each clause is a law.

ghost use Rattle.call_laws.specs.ErrorLaws.{ErrorsChangeNothing};

/// A call that replies an error leaves the store as it was.
pub fn errors_change_nothing()
    ensures { ErrorsChangeNothing }
{}
