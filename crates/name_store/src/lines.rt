ghost use Rattle.std.specs.Prelude.{◌≡◌, ◌∷◌, ◌++◌, [], IfOk, OnOk, option_map};
ghost use Rattle.std.specs.Option.{option_to_list};
ghost use Rattle.name_store.specs.NameTrees.{dir_at};
ghost use Rattle.name_store.specs.TreeLines.{line_of, tree_lines};

use crate::directories::Directories;
use crate::operation::Node;
use crate::tree_line::{TreeLine, line_of};
use std::alloc::{AllocError, Global};
use std::collections::btree_map;
use wf_core::{DirId, Name, Text};

impl Directories {
    /// The lines of the tree, from the root downwards. A tree of 2^32 ids or more has none: it is want of memory.
    pub(crate) fn lines(&self, alloc: Global) -> Result<Vec<TreeLine>, AllocError>
        ensures { IfOk result (λ lines. lines.items ≡ tree_lines self.now) }
    {
        let Ok(levels) = u32::try_from(self.next_id()) else {
            return Err(AllocError);
        };
        let mut lines = Vec::new(alloc);
        let name = Text::read(alloc, b"/")?;
        lines.push(TreeLine::Dir { depth: 0, name })?;
        // What is left of each directory on the way down, so that the way may be as long as memory allows.
        let mut way = Vec::new(alloc);
        self.descend(DirId::ROOT, &mut way)?;
        while let Some(mut entries) = way.pop() {
            let Some((name, node)) = entries.next() else {
                continue;
            };
            way.push(entries)?;
            let depth = way.len() as u32;
            push_line(alloc, depth, name, node, &mut lines)?;
            let Some(child) = node.directory() else {
                continue;
            };
            // No tree has more levels than ids.
            if depth < levels {
                self.descend(child, &mut way)?;
            }
        }
        Ok(lines)
    }

    /// Goes into a directory, where there is one.
    fn descend<'a>(
        &'a self,
        id: DirId,
        way: &mut Vec<btree_map::Iter<'a, Name, Node>>,
    ) -> Result<(), AllocError>
        ensures { OnOk result (way.new.items ≡ way.old.items
            ++ option_to_list (option_map (λ directory. directory.entries) (dir_at self.now id))) }
    {
        if let Some(directory) = self.get(id) {
            way.push(directory.entries())?;
        }
        Ok(())
    }
}

/// Adds the line of an entry.
fn push_line(
    alloc: Global,
    depth: u32,
    name: &Name,
    node: &Node,
    lines: &mut Vec<TreeLine>,
) -> Result<(), AllocError>
    ensures { OnOk result
        (lines.new.items ≡ lines.old.items ++ line_of depth name.now node.now ∷ []) }
{
    lines.push(line_of(alloc, depth, name, node)?)?;
    Ok(())
}
