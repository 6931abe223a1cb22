//! What a plug makes in the tree, in one critical section.
ghost use Rattle.std.specs.Prelude.{◌≡◌, ◌≢◌, ◌≤◌, ◌^◌, None, IfErr, IfOk, OnErr, OnOk};
ghost use Rattle.kf_core.specs.Names.{name_fault};
ghost use Rattle.kf_shared.specs.Locked.{Unchanged};
ghost use Rattle.kf_device.specs.Plugs.{Filled, HasBase, HasBases, HasFile, Plugged};
ghost use Rattle.kf_device.specs.Stops.{FewBases, FewFiles, IsStopped, StepRefusal};

use crate::devices::Nodes;
use crate::tags::{DeviceFile, tag_of};
use kf_core::{Key, Node, Refusal};
use kf_shared::{Editor, Naming, Removing};

/// A plug that was refused. It must be passed to [`crate::Bus::take_back`] once the tree is unlocked.
pub struct RefusedPlug<N: Naming> {
    /// Why it was refused.
    pub refusal: Refusal,
    /// The removal of the directory that it had made, if it had made one and the removal could be begun.
    pub begun: Option<Removing<N>>,
    // the number of the plug, if it had begun
    pub(crate) plug: Option<u64>,
}

impl<N: Naming> RefusedPlug<N> {
    /// A plug that was refused before its directory was made.
    pub(crate) fn before(refusal: Refusal, plug: Option<u64>) -> RefusedPlug<N>
        ensures refusal { result.refusal ≡ refusal }
        ensures none { result.begun ≡ None }
    {
        RefusedPlug {
            refusal,
            begun: None,
            plug,
        }
    }
}

// The node with this name, or else a new live directory with this name.
fn base<N: Naming>(editor: &mut Editor<'_, N>, parent: Key, name: &[u8]) -> Result<Key, Refusal>
    requires lawful { name_fault name.now ≡ None }
    ensures there { IfOk result (λ key. HasBase editor.old editor.new parent name.now key) }
    ensures refused { IfErr result (λ refusal. StepRefusal refusal) }
    ensures same { OnErr result (Unchanged editor.old editor.new) }
{
    match editor.state().find(parent, name) {
        Err(Refusal::NoEntry) => editor.create(parent, name, Node::Dir, true),
        other => other,
    }
}

// The keys of `/devices` and `/bus/devices`, which are made if they are not there.
fn bases<N: Naming>(editor: &mut Editor<'_, N>) -> Result<(Key, Key), Refusal>
    ensures there { IfOk result (λ found. HasBases editor.old editor.new found.0 found.1) }
    ensures root { editor.old.state.root.slot ≡ 0 }
    ensures refused { IfErr result (λ refusal. StepRefusal refusal) }
    ensures few { OnErr result (FewBases editor.old editor.new) }
{
    let root = editor.state().root();
    let devices = base(editor, root, b"devices")?;
    let bus = base(editor, root, b"bus")?;
    let links = base(editor, bus, b"devices")?;
    Ok((devices, links))
}

// Makes a file of the device, which is not activated yet.
fn file<N: Naming>(
    editor: &mut Editor<'_, N>,
    dir: Key,
    name: &[u8],
    mode: u16,
    serial: u64,
    file: DeviceFile,
) -> Result<Key, Refusal>
    requires few { serial ≤ 2 ^ 60 }
    requires lawful { name_fault name.now ≡ None }
    ensures made { IfOk result (λ key. HasFile editor.old editor.new dir name.now mode serial file key) }
    ensures refused { IfErr result (λ refusal. StepRefusal refusal) }
    ensures same { OnErr result (Unchanged editor.old editor.new) }
{
    let tag = tag_of(serial, file);
    editor.create(dir, name, Node::File { mode, tag }, false)
}

// Makes the device's files, activates its directory, and makes its link.
fn fill<N: Naming>(
    editor: &mut Editor<'_, N>,
    links: Key,
    dir: Key,
    name: &[u8],
    serial: u64,
    nodes: &mut Nodes,
) -> Result<(), Refusal>
    requires few { serial ≤ 2 ^ 60 }
    requires lawful { name_fault name.now ≡ None }
    requires root { editor.old.state.root.slot ≡ 0 }
    requires below { dir.slot ≢ 0 }
    ensures filled { OnOk result (Filled editor.old editor.new links dir name.now serial nodes.new) }
    ensures dir { nodes.new.dir ≡ nodes.old.dir }
    ensures refused { IfErr result (λ refusal. StepRefusal refusal) }
    ensures few { OnErr result (FewFiles dir serial editor.old editor.new) }
{
    let value = file(editor, dir, b"value", 0o644, serial, DeviceFile::Value)?;
    nodes.value = Some(value);
    file(editor, dir, b"serial", 0o444, serial, DeviceFile::Serial)?;
    let delete = file(editor, dir, b"delete", 0o200, serial, DeviceFile::Delete)?;
    nodes.delete = Some(delete);
    editor.activate(dir)?;
    editor.create(links, name, Node::Link { target: dir }, true)?;
    Ok(())
}

/// Makes the base directories that are not there, the device's directory with its files, and its link.
/// Whatever the result is, `nodes` says which of the device's nodes were made.
pub(crate) fn make<N: Naming>(
    editor: &mut Editor<'_, N>,
    name: &[u8],
    serial: u64,
    nodes: &mut Nodes,
) -> Result<Key, RefusedPlug<N>>
    requires few { serial ≤ 2 ^ 60 }
    requires lawful { name_fault name.now ≡ None }
    requires none { nodes.old.dir ≡ None }
    ensures plugged { IfOk result (λ dir. Plugged editor.old editor.new name.now serial nodes.new dir) }
    ensures refused { IfErr result (λ stopped. StepRefusal stopped.refusal) }
    ensures stopped { IfErr result (λ stopped.
        IsStopped editor.old editor.new name.now serial nodes.new stopped.begun) }
{
    let (devices, links) = match bases(editor) {
        Ok(found) => found,
        Err(refusal) => return Err(RefusedPlug::before(refusal, Some(serial))),
    };
    let dir = match editor.create(devices, name, Node::Dir, false) {
        Ok(dir) => dir,
        Err(refusal) => return Err(RefusedPlug::before(refusal, Some(serial))),
    };
    nodes.dir = Some(dir);
    match fill(editor, links, dir, name, serial, nodes) {
        Ok(()) => Ok(dir),
        Err(refusal) => Err(RefusedPlug {
            refusal,
            begun: editor.begin_removal_of(dir).ok(),
            plug: Some(serial),
        }),
    }
}
