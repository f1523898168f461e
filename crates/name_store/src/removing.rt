ghost use Rattle.std.specs.Prelude.{◌≡◌};
ghost use Rattle.name_store.specs.NameTrees.{dir_at, remdir_outcome, remfile_outcome, unless_gone};
ghost use Rattle.name_store.specs.Sound.{IsSound};

use crate::directories::Directories;
use crate::operation::{NameAnswer, Node};
use wf_core::{DirId, Errno, Name};

impl Directories {
    pub(crate) fn remfile(&mut self, id: DirId, name: &Name, slash: bool) -> NameAnswer
        ensures { unless_gone self.old (dir_at self.old id) (remfile_outcome self.old id name.now slash)
            ≡ record { tree = self.new; answer = result } }
    {
        let Some(directory) = self.get(id) else {
            return NameAnswer::Gone;
        };
        let removed = match directory.entry(name) {
            None => return NameAnswer::Fault(Errno::Enoent),
            Some(Node::Dir(_) | Node::Mount(_)) => return NameAnswer::Fault(Errno::Eisdir),
            Some(_) if slash => return NameAnswer::Fault(Errno::Enotdir),
            Some(Node::File(file)) => NameAnswer::RemovedFile(*file),
            Some(Node::Link(..)) => NameAnswer::RemovedLink,
        };
        self.unlink(id, name);
        removed
    }

    pub(crate) fn remdir(&mut self, id: DirId, name: &Name) -> NameAnswer
        requires { IsSound self.old }
        ensures { unless_gone self.old (dir_at self.old id) (remdir_outcome self.old id name.now)
            ≡ record { tree = self.new; answer = result } }
    {
        let Some(directory) = self.get(id) else {
            return NameAnswer::Gone;
        };
        let child = match directory.entry(name) {
            None => return NameAnswer::Fault(Errno::Enoent),
            Some(Node::Mount(_)) => return NameAnswer::Fault(Errno::Ebusy),
            Some(Node::File(_) | Node::Link(..)) => return NameAnswer::Fault(Errno::Enotdir),
            Some(Node::Dir(child)) => *child,
        };
        if !self.is_empty(child) {
            return NameAnswer::Fault(Errno::Enotempty);
        }
        self.unlink(id, name);
        self.free(Some(child));
        NameAnswer::Done
    }
}
