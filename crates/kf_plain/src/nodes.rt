//! The tree and the callers of its nodes, which are changed together.

ghost use Rattle.std.specs.Prelude.{◌≡◌, ◌≤◌, ◌<◌, ◌-◌, ◌+◌, ◌^◌, [], ◌∷◌, ◌++◌, length, slice_set, IfOk, IfErr};
ghost use Rattle.kf_core.specs.declared.key.Key.{Key};
ghost use Rattle.kf_core.specs.declared.caller.Phase.TheVariants.{Still, Spent};
ghost use Rattle.kf_core.specs.declared.refusal.Refusal.TheVariants.{NoMemory};
ghost use Rattle.std.specs.Prelude.{true};
ghost use Rattle.kf_core.specs.Tree.{is_linked};
ghost use Rattle.kf_world.specs.Bounded.{hold_count};
ghost use Rattle.kf_plain.specs.Nodes.{IsFreeKeyOf, NodePinRefused, Waits, new_nodes};

use kf_core::{Key, Limits, Refusal};
use kf_pages::Page;
use kf_tree::State;
use kf_world::World;
use std::alloc::Global;
use std::marker::Model;

mod commands;
mod hiding;
mod paths;
mod subtrees;
mod visits;

pub use hiding::BoardToken;
pub use visits::BoardFile;

/// A tree with its stored commands, and the callers of its nodes. Contracts see the log, each slot's last
/// generation, the limit of holds, and the callers. The tree and the callers' world have the same linked,
/// activated, doomed and hidden keys.
#[derive(Drop)]
pub struct Nodes {
    state: State,
    world: World,
    // The pages of closed files, which the next files get.
    pages: Vec<Box<Page>>,
}

impl Model for Nodes {
    ghost use Rattle.kf_core.specs.Agrees.{AgreesHidden};
    ghost use Rattle.kf_plain.specs.Nodes.{Nodes as NodesSeen, nodes_of, AreTied};

    ghost Value = { NodesSeen };

    ghost view = { λ n. nodes_of n.state n.world };

    ghost invariant = { λ n. AreTied n.state n.world.world × AgreesHidden n.state.tree n.world.world };
}

impl Nodes {
    /// A tree of only the root, which is live, and no callers. Each slot has had `start` generations before.
    /// The root has the next generation of its slot.
    pub fn new_at(alloc: Global, limits: Limits, start: u32) -> Result<Nodes, Refusal>
        requires start { start ≤ 2 ^ 32 - 2 }
        ensures made { IfOk result (λ nodes. nodes ≡ new_nodes limits.slots limits.holds start) }
        ensures refused { IfErr result (λ refusal. refusal ≡ NoMemory) }
    {
        let root = Key {
            slot: 0,
            generation: start + 1,
        };
        let state = State::new(alloc, limits, root)?;
        let world = World::new_at(alloc, limits, start)?;
        Ok(Nodes {
            state,
            world,
            pages: Vec::new(alloc),
        })
    }

    /// The tree with its stored commands.
    pub fn state(&self) -> &State
        ensures log { result.now ≡ self.now.log }
    {
        &self.state
    }

    /// The next key of the lowest free slot except the root's, or None if no slot is free.
    pub fn next_key(&self) -> Option<Key>
        ensures next { IsFreeKeyOf self.now.log.tree self.now.last (hold_count self.now.callers) result }
    {
        self.world.free_key()
    }

    /// Makes a new caller, which holds a linked node, and returns its number.
    /// Refused with `TooManyHolds`, then with `NoMemory`; after a refusal nothing is changed.
    pub fn pin(&mut self, key: Key) -> Result<usize, Refusal>
        requires linked { is_linked self.old.log.tree key ≡ true }
        ensures number { IfOk result (λ id. id ≡ length self.old.callers) }
        ensures held { IfOk result
            (λ _. self.new ≡ record self.old {
              callers = self.old.callers
                  ++ record { key = key; phase = Still } ∷ [];
            }) }
        ensures room { IfOk result (λ _. hold_count self.old.callers key.slot < self.old.limit) }
        ensures refused { IfErr result (λ refusal.
            NodePinRefused self.old key refusal × (self.new ≡ self.old)) }
    {
        self.world.pin(key)
    }

    /// Releases the hold of a waiting caller.
    pub fn release(&mut self, id: usize, key: Key)
        requires waits { Waits self.old.callers id key }
        ensures spent { self.new
            ≡ record self.old {
              callers = slice_set self.old.callers id
                  (record { key = key; phase = Spent });
            } }
    {
        let _ = key; // only the contract names it
        self.world.release(id);
    }
}
