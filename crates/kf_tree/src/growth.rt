//! What allocates memory: copies of names, and room for commands.

ghost use Rattle.std.specs.Prelude.{◌≡◌, ◌≤◌, ◌<◌, ◌+◌, ◌*◌, ◌^◌, ◌++◌, ◌∷◌, [], vec_capacity, length, max, IsOk, IfOk, IfErr, OnOk};

use kf_core::{Command, NameBytes, Refusal};
use std::alloc::Global;

/// A copy of a name. It allocates only for more than 24 bytes, and is refused if there is no memory.
pub(crate) fn copy_name(alloc: Global, name: &[u8]) -> Result<NameBytes, Refusal>
    ensures made { IfOk result (λ copy. copy ≡ name.now) }
    ensures short { length name.now ≤ 24 → IsOk result }
    ensures refused { IfErr result (λ refusal. refusal ≡ Refusal.NoMemory) }
{
    match NameBytes::copied(alloc, name) {
        Ok(copy) => Ok(copy),
        Err(_) => Err(Refusal::NoMemory),
    }
}

/// Makes room for one command, and for this many after it. A list that grows gets room for at least twice its
/// commands, so that they are seldom copied.
pub(crate) fn make_room(commands: &mut Vec<Command>, later: usize) -> Result<(), Refusal>
    requires fits { later + 1 < 2 ^ 64 }
    ensures items { commands.new.items ≡ commands.old.items }
    ensures kept { vec_capacity commands.old ≤ vec_capacity commands.new }
    ensures room { OnOk result (length commands.old.items + 1 + later ≤ vec_capacity commands.new) }
    ensures doubles { OnOk result (vec_capacity commands.old < vec_capacity commands.new
        → 2 * length commands.old.items ≤ vec_capacity commands.new) }
    ensures fits { vec_capacity commands.new ≤ max (vec_capacity commands.old)
        (length commands.old.items + max (length commands.old.items) (1 + later)) }
    ensures succeeds { length commands.old.items + 1 + later ≤ vec_capacity commands.old → IsOk result }
    ensures refused { IfErr result (λ refusal. refusal ≡ Refusal.NoMemory) }
{
    let wanted = 1 + later;
    if wanted <= commands.capacity() - commands.len() {
        return Ok(());
    }
    match commands.reserve_exact(commands.len().max(wanted)) {
        Ok(()) => Ok(()),
        Err(_) => Err(Refusal::NoMemory),
    }
}

/// Makes room for this many later commands, and frees what is beyond that.
pub(crate) fn fit_room(commands: &mut Vec<Command>, later: usize) -> Result<(), Refusal>
    ensures items { commands.new.items ≡ commands.old.items }
    ensures room { OnOk result (length commands.old.items + later ≤ vec_capacity commands.new) }
    ensures fits { vec_capacity commands.new
        ≤ max (vec_capacity commands.old) (length commands.old.items + later) }
    ensures refused { IfErr result (λ refusal. refusal ≡ Refusal.NoMemory) }
{
    let Ok(()) = commands.reserve_exact(later) else {
        return Err(Refusal::NoMemory);
    };
    commands.shrink_to(commands.len() + later);
    Ok(())
}

/// Stores a command for which there is room. It allocates nothing.
pub(crate) fn store(commands: &mut Vec<Command>, command: Command)
    requires room { length commands.old.items < vec_capacity commands.old }
    ensures items { commands.new.items ≡ commands.old.items ++ command ∷ [] }
    ensures in_place { vec_capacity commands.new ≡ vec_capacity commands.old }
{
    commands.push_reserved(command);
}
