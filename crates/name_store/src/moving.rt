ghost use Rattle.std.specs.Prelude.{◌≡◌, IfOk, OnOk, OnErr, option_copied};
ghost use Rattle.name_store.specs.NameTrees.{dir_at, dir_in, dir_of, with_entry_at, without_directory, is_same_entry, mount_fault, move_answer, move_fault, move_outcome, over_fault, unless_gone, with_parent_at, without_entry_at};
ghost use Rattle.name_store.specs.Sound.{IsSound};
ghost use Rattle.name_store.specs.Presence.{AreThere};

use crate::directories::Directories;
use crate::operation::{NameAnswer, Node};
use std::alloc::AllocError;
use wf_core::{DirId, Errno, Name};

impl Directories {
    /// Moves the entry `name` of directory `from` to the entry `new_name` of directory `to`.
    pub(crate) fn move_entry(
        &mut self,
        from: DirId,
        name: &Name,
        to: DirId,
        new_name: &Name,
        slash: bool,
    ) -> Result<NameAnswer, AllocError>
        requires { IsSound self.old }
        ensures ok { IfOk result (λ answer. unless_gone self.old (dir_at self.old from) (λ source.
            unless_gone self.old (dir_at self.old to)
            (move_outcome self.old from name.now to new_name.now slash source))
            ≡ record { tree = self.new; answer = answer }) }
        ensures err { OnErr result (self.new ≡ self.old) }
    {
        let Some(source) = self.get(from) else {
            return Ok(NameAnswer::Gone);
        };
        let Some(target) = self.get(to) else {
            return Ok(NameAnswer::Gone);
        };
        let Some(node) = source.entry(name) else {
            return Ok(NameAnswer::Fault(Errno::Enoent));
        };
        let over = target.entry(new_name);
        if let Some(errno) = self.move_fault(node, to, slash) {
            return Ok(NameAnswer::Fault(errno));
        }
        if let Some(errno) = mount_fault(over) {
            return Ok(NameAnswer::Fault(errno));
        }
        if is_same_entry(from, name, to, new_name) {
            return Ok(NameAnswer::Same);
        }
        if let Some(errno) = self.over_fault(node, over) {
            return Ok(NameAnswer::Fault(errno));
        }
        let answer = move_answer(over);
        let replaced = directory_in(over);
        let node = node.copy()?;
        self.relocate(from, name, to, new_name.clone()?, node, replaced)?;
        Ok(answer)
    }

    /// Why a node is not moved to directory `to`, whatever is there.
    fn move_fault(&self, node: &Node, to: DirId, slash: bool) -> Option<Errno>
        ensures { result ≡ move_fault self.now node.now to slash }
    {
        match node {
            Node::Mount(_) => Some(Errno::Ebusy),
            Node::File(_) | Node::Link(..) => slash.then_some(Errno::Enotdir),
            Node::Dir(id) => self.is_inside(*id, to).then_some(Errno::Einval),
        }
    }

    /// Why a node does not take the place of another.
    fn over_fault(&self, node: &Node, over: Option<&Node>) -> Option<Errno>
        ensures { result ≡ over_fault self.now node.now (option_copied over.entry) }
    {
        match (node, over?) {
            (Node::Dir(_), Node::Dir(other)) if self.is_empty(*other) => None,
            (Node::Dir(_), Node::Dir(_)) => Some(Errno::Enotempty),
            (Node::Dir(_), _) => Some(Errno::Enotdir),
            (_, Node::Dir(_)) => Some(Errno::Eisdir),
            _ => None,
        }
    }

    /// Makes the move. The entry is put at its new place first, since that alone can want memory.
    fn relocate(
        &mut self,
        from: DirId,
        name: &Name,
        to: DirId,
        new_name: Name,
        node: Node,
        replaced: Option<DirId>,
    ) -> Result<(), AllocError>
        requires { AreThere self.old from to (dir_of node) replaced }
        ensures ok { OnOk result (self.new ≡ without_directory (with_parent_at
            (without_entry_at (with_entry_at self.old to new_name node) from name.now)
            (dir_of node) to) replaced) }
        ensures err { OnErr result (self.new ≡ self.old) }
    {
        let child = node.directory();
        self.enter(to, new_name, node)?;
        self.unlink(from, name);
        self.set_parent(child, to);
        self.free(replaced);
        Ok(())
    }
}

fn is_same_entry(from: DirId, name: &Name, to: DirId, new_name: &Name) -> bool
    ensures { result ≡ is_same_entry from name.now to new_name.now }
{
    from == to && name == new_name
}

/// A mount is not replaced.
fn mount_fault(over: Option<&Node>) -> Option<Errno>
    ensures { result ≡ mount_fault (option_copied over.entry) }
{
    match over {
        Some(Node::Mount(_)) => Some(Errno::Ebusy),
        _ => None,
    }
}

fn move_answer(over: Option<&Node>) -> NameAnswer
    ensures { result ≡ move_answer (option_copied over.entry) }
{
    match over {
        Some(Node::File(file)) => NameAnswer::Over(*file),
        _ => NameAnswer::Moved,
    }
}

fn directory_in(over: Option<&Node>) -> Option<DirId>
    ensures { result ≡ dir_in (option_copied over.entry) }
{
    over?.directory()
}
