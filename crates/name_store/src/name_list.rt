ghost use Rattle.std.specs.Prelude.{◌≡◌, ℕ, List, [], ◌∷◌, ◌++◌, nat_eq, IfOk, OnOk};
ghost use Rattle.std.specs.Cmp.{partial_equiv_from_equiv};
ghost use Rattle.std.specs.Cmp.Lexicographic.{pointwise, lists_equiv, nat_list_eq_equiv};

use std::alloc::{AllocError, Global};
use std::marker::Model;
use wf_core::Name;

/// Names of entries in a row, seen as their list.
#[derive(Debug, Drop)]
pub struct NameList {
    names: Vec<Name>,
}

impl Model for NameList {
    ghost Value = { List (List ℕ) };

    ghost view = { λ l. l.names.items };
}

impl NameList {
    /// No names.
    pub(crate) fn new(alloc: Global) -> NameList
        ensures { result ≡ [] }
    {
        NameList {
            names: Vec::new(alloc),
        }
    }

    pub(crate) fn push(&mut self, name: Name) -> Result<(), AllocError>
        ensures { OnOk result (self.new ≡ self.old ++ name ∷ []) }
    {
        self.names.push(name)?;
        Ok(())
    }

    pub(crate) fn copy(&self) -> Result<NameList, AllocError>
        ensures { IfOk result (λ names. names ≡ self.now) }
    {
        Ok(NameList {
            names: self.names.clone()?,
        })
    }

    /// The names, in their order.
    pub fn as_slice(&self) -> &[Name]
        ensures { result.now ≡ self.now }
    {
        self.names.as_slice()
    }
}

impl PartialEq for NameList {
    ghost eq = { λ a b. pointwise (pointwise nat_eq) a b };

    ghost laws = { partial_equiv_from_equiv (lists_equiv nat_list_eq_equiv) };

    fn eq(&self, other: &NameList) -> bool {
        self.names.as_slice() == other.names.as_slice()
    }
}

impl Eq for NameList {
    ghost laws = { lists_equiv nat_list_eq_equiv };
}
