ghost use Rattle.std.specs.Prelude.{◌≡◌, IfOk, OnErr};
ghost use Rattle.name_store.specs.NameTrees.{dir_at, addfile_outcome, addlink_outcome, makedir_outcome, unless_gone};

use crate::directories::Directories;
use crate::operation::{NameAnswer, Node};
use std::alloc::AllocError;
use wf_core::{DirId, Errno, FileId, Name, PathText};

impl Directories {
    pub(crate) fn makedir(&mut self, id: DirId, name: &Name) -> Result<NameAnswer, AllocError>
        ensures ok { IfOk result
            (λ answer. unless_gone self.old (dir_at self.old id) (makedir_outcome self.old id name.now)
            ≡ record { tree = self.new; answer = answer }) }
        ensures err { OnErr result (self.new ≡ self.old) }
    {
        let Some(directory) = self.get(id) else {
            return Ok(NameAnswer::Gone);
        };
        if directory.entry(name).is_some() {
            return Ok(NameAnswer::Fault(Errno::Eexist));
        }
        let made = self.grow(id, name.clone()?)?;
        Ok(NameAnswer::MadeDir(made))
    }

    pub(crate) fn addlink(
        &mut self,
        id: DirId,
        name: &Name,
        text: &PathText,
    ) -> Result<NameAnswer, AllocError>
        ensures ok { IfOk result
            (λ answer. unless_gone self.old (dir_at self.old id)
            (addlink_outcome self.old id name.now text.now)
            ≡ record { tree = self.new; answer = answer }) }
        ensures err { OnErr result (self.new ≡ self.old) }
    {
        let Some(directory) = self.get(id) else {
            return Ok(NameAnswer::Gone);
        };
        if directory.entry(name).is_some() {
            return Ok(NameAnswer::Fault(Errno::Eexist));
        }
        let made = self.link(id, name.clone()?, text.clone()?)?;
        Ok(NameAnswer::MadeLink(made))
    }

    pub(crate) fn addfile(
        &mut self,
        id: DirId,
        name: &Name,
        file: FileId,
    ) -> Result<NameAnswer, AllocError>
        ensures ok { IfOk result
            (λ answer. unless_gone self.old (dir_at self.old id) (addfile_outcome self.old id name.now file)
            ≡ record { tree = self.new; answer = answer }) }
        ensures err { OnErr result (self.new ≡ self.old) }
    {
        let Some(directory) = self.get(id) else {
            return Ok(NameAnswer::Gone);
        };
        if let Some(node) = directory.entry(name) {
            return Ok(NameAnswer::Taken(node.copy()?));
        }
        self.enter(id, name.clone()?, Node::File(file))?;
        Ok(NameAnswer::Done)
    }
}
