//! The requests that make, activate and move nodes.

ghost use Rattle.std.specs.Prelude.{◌≡◌, ◌+◌, OnOk};

use super::WorkerBoard;
use crate::script_ops::ScriptOps;
use kf_core::{Key, Node, Refusal};
use kf_files::FileError;
use kf_shared::Naming;
use std::sync::Wait;

impl<W: ScriptOps, N: Naming, R: Wait> WorkerBoard<'_, W, N, R> {
    /// Makes a directory at a path, activated if it is to be live. It takes the tree's lock once.
    pub(super) fn make_directory(&self, path: &[u8], is_live: bool) -> Result<Key, Refusal> {
        let mut editor = self.common.tree.edit(self.rt);
        let (dir, name) = editor.state().walk_parent(path)?;
        editor.create(dir, name, Node::Dir, is_live)
    }

    /// Makes a live link at a path to the node at another path. It takes the tree's lock once.
    pub(super) fn make_link(&self, path: &[u8], target: &[u8]) -> Result<Key, Refusal> {
        let mut editor = self.common.tree.edit(self.rt);
        let (dir, name) = editor.state().walk_parent(path)?;
        let target = editor.state().walk(target)?;
        editor.create(dir, name, Node::Link { target }, true)
    }

    /// The directory that contains a path's last component, and that component.
    fn parent_of<'a>(&self, path: &'a [u8]) -> Result<(Key, &'a [u8]), Refusal> {
        self.common.tree.read(self.rt).state().walk_parent(path)
    }

    /// Makes a live file of this mode and tag.
    fn add_file(&self, dir: Key, name: &[u8], mode: u16, tag: u64) -> Result<Key, Refusal> {
        let mut editor = self.common.tree.edit(self.rt);
        editor.create(dir, name, Node::File { mode, tag }, true)
    }

    /// Makes a live file of this mode and text at a path. It first finds the directory, then keeps the text
    /// under a new tag, and then makes the file. So a path without a directory is reported before a fault of
    /// the text. If the file is refused, its text is dropped.
    pub(super) fn make_file(
        &mut self,
        path: &[u8],
        mode: u16,
        text: &[u8],
    ) -> Result<Key, FileError>
        ensures spent { OnOk result (self.new.tags.next ≡ self.old.tags.next + 1) }
        ensures same { self.new.tags.end ≡ self.old.tags.end }
    {
        let (dir, name) = self.parent_of(path).map_err(FileError::Refused)?;
        let tag = self.tags.give().map_err(FileError::Refused)?;
        self.common
            .serving()
            .texts
            .first(self.rt, tag, text)
            .map_err(FileError::Callback)?;
        match self.add_file(dir, name, mode, tag) {
            Ok(key) => {
                self.common.made_file(self.rt, key, tag);
                Ok(key)
            }
            Err(refusal) => {
                self.common.let_go(self.rt, tag);
                Err(FileError::Refused(refusal))
            }
        }
    }

    /// Activates the subtree at a path. It takes the tree's lock once.
    pub(super) fn activate(&self, path: &[u8]) -> Result<(), Refusal> {
        let mut editor = self.common.tree.edit(self.rt);
        let key = editor.state().walk(path)?;
        editor.activate(key)
    }

    /// Moves the node at a path into the directory at another path, under a name. It takes the tree's lock
    /// once.
    pub(super) fn move_node(&self, path: &[u8], dir: &[u8], name: &[u8]) -> Result<(), Refusal> {
        let mut editor = self.common.tree.edit(self.rt);
        let key = editor.state().walk(path)?;
        let dir = editor.state().walk(dir)?;
        editor.rename(key, dir, name)
    }

    /// Replaces the stored commands with the canonical list that makes this tree. It takes the tree's lock
    /// once.
    pub(super) fn compact(&self) -> Result<(), Refusal> {
        self.common.tree.edit(self.rt).compact()
    }
    /// Plugs a device into the run's bus. It returns the key of the device's directory.
    pub(super) fn plug(&self, name: &[u8], text: &[u8]) -> Result<Key, Refusal> {
        let common = self.common;
        common.bus.plug(self.rt, &common.tree, name, text)
    }

    /// Unplugs a device from the run's bus, and waits for the callbacks of its files.
    pub(super) fn unplug(&self, name: &[u8]) -> Result<(), Refusal> {
        let common = self.common;
        common.bus.unplug(self.rt, &common.tree, name)
    }
}
