//! The numbers of holds and users of a node, as the Master loads them from the words.
ghost use Rattle.std.specs.Prelude.{◌≡◌, None, is_some, IfSome};
ghost use Rattle.kf_words.specs.Made.{WereLoaded};
ghost use Rattle.kf_words.specs.Nodes.{KeepsNodes, marks_of, sight_in};

use crate::layout::{holds_in, users_in};
use crate::master::Master;
use kf_core::Key;

/// How many holds a slot has, and how many users its node has. A refused try counts as a user until it is
/// undone.
#[derive(Clone, Copy)]
pub struct Counts {
    pub holds: u32,
    pub users: u32,
}

impl Master {
    /// Counts the holds and the users of a linked node, by one load of each of the two words of its slot. If
    /// the node is not linked, it returns None and makes no word step.
    pub fn counts(&mut self, key: Key) -> Option<Counts>
        ensures kept { KeepsNodes self.old self.new }
        ensures linked { is_some result ≡ is_some (marks_of self.old.view key) }
        ensures counted { IfSome result
            (λ counts. WereLoaded key.slot counts (sight_in self.old) (sight_in self.new)) }
        ensures none { result ≡ None → self.new ≡ self.old }
    {
        self.marks(key)?;
        let held = self.steps.load_hold(key.slot);
        let used = self.steps.look_over(key.slot);
        Some(Counts {
            holds: holds_in(held),
            users: users_in(used),
        })
    }
}
