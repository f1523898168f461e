//! What a user may conclude of paths, links, slashes, lists and moves. The functions do nothing: each clause is a law.

ghost use Rattle.call_laws.specs.PathLaws.{ComponentsLeadOn, LinksLead, ListNamesEachOnce, RenameMoves, SlashesAskForDirectories};

/// Components lead where the later ones lead from where the first ones lead.
pub fn components_lead_on()
    ensures { ComponentsLeadOn }
{}

/// Components through a link lead where the components of its text in its place lead, with one name and one link fewer.
pub fn links_lead()
    ensures { LinksLead }
{}

/// A path that ends in a slash names a directory or nothing.
pub fn slashes_ask_for_directories()
    ensures { SlashesAskForDirectories }
{}

/// Lists from 0, from `LIST_MAX` and so on name each entry of a directory once, in the order of the names' bytes.
pub fn list_names_each_once()
    ensures { ListNamesEachOnce }
{}

/// After `rename` the new name is what the old one was, and the old one is no more, unless both are one entry. A moved
/// directory keeps its id and its entries.
pub fn rename_moves()
    ensures { RenameMoves }
{}
