//! What holds in every run: for every list of events, from every opening world.

ghost use Rattle.std.specs.Prelude.{◌≡◌, ◌≢◌, ◌<◌, ◌⊎◌, ◌↔◌, ℕ, List, [], ◌∷◌, Some, IsTrue, IsFalse};
ghost use Rattle.kf_core.specs.Tree.{Tree, ancestor, in_subtree};
ghost use Rattle.kf_core.specs.declared.key.Key.{Key};
ghost use Rattle.kf_core.specs.declared.key.Node.{Node};
ghost use Rattle.kf_core.specs.declared.caller.Phase.{Phase};
ghost use Rattle.kf_core.specs.declared.caller.Phase.TheVariants.{Running, Drained, Parted, Spent};
ghost use Rattle.kf_core.specs.declared.event.Event.{Event};
ghost use Rattle.kf_core.specs.declared.event.Event.TheVariants.{Born, Look, Mark, Enter};
ghost use Rattle.kf_core.specs.Phases.{saw_drain, saw_unused, is_hiding};
ghost use Rattle.kf_core.specs.Bare.{IsCaller, IsLast, is_doomed, is_linked, is_live, BareWorld};
ghost use Rattle.kf_core.specs.Safe.{NoneRunning, OnlyHider, Safe, NoneHolding};
ghost use Rattle.kf_core.specs.Agrees.{Agrees, AgreesHidden};
ghost use Rattle.kf_core.specs.Steps.{BareStep, BareRun};
ghost use Rattle.kf_core.specs.Worlds.{World, bare, opening, tree, Step, Run};
ghost use Rattle.kf_core.specs.Life.{whole_life, at, file_at, second, a, by};
ghost use Rattle.kf_core.specs.Marks.{fresh_marks};

/// Once a node is marked, each try for a reference to it is refused. Once a caller has seen the node's drain,
/// nobody is ever running on it again. While a caller is Hidden on a node, nobody is running on it. A caller
/// that released its reference inside its callback may take one again there, but starts no callback under it.
pub fn no_call_after_removal()
    // Nobody is running on a key on which a caller is drained, parted or hidden.
    ensures none_running { (count start : ℕ) (events : List Event) (w : World) →
        Run (opening count start) events w →
        (c : ℕ) (key : Key) (phase : Phase) → IsCaller (bare w) c key phase → IsTrue (saw_unused phase) →
        NoneRunning (bare w) key }
    // The key of a drained or parted caller is doomed.
    ensures doomed { (count start : ℕ) (events : List Event) (w : World) →
        Run (opening count start) events w →
        (c : ℕ) (key : Key) (phase : Phase) → IsCaller (bare w) c key phase → IsTrue (saw_drain phase) →
        IsTrue (is_doomed (bare w) key) }
    // The key of a parted caller is not linked.
    ensures gone { (count start : ℕ) (events : List Event) (w : World) → Run (opening count start) events w →
        (c : ℕ) (key : Key) → IsCaller (bare w) c key Parted → IsFalse (is_linked (bare w) key) }
    // The key of a running caller is linked.
    ensures linked { (count start : ℕ) (events : List Event) (w : World) →
        Run (opening count start) events w →
        (c : ℕ) (key : Key) → IsCaller (bare w) c key Running → IsTrue (is_linked (bare w) key) }
    // A key that a caller hides is not live, and no other caller hides it.
    ensures hidden { (count start : ℕ) (events : List Event) (w : World) →
        Run (opening count start) events w →
        (c : ℕ) (key : Key) (phase : Phase) → IsCaller (bare w) c key phase → IsTrue (is_hiding phase) →
        IsFalse (is_live (bare w) key) × OnlyHider (bare w) c key }
    // Once a key is marked, it is never live again, so each try for a reference to it is refused.
    ensures marked { (count start : ℕ) (before later : List Event) (u v w : World) (key : Key) →
        Run (opening count start) before u → Step u (Mark key) v → Run v later w →
        IsFalse (is_live (bare w) key) }
    // After a look that showed the drain of a key, nobody is ever running on that key.
    ensures for_good { (count start : ℕ) (before later : List Event) (u v w : World) (c : ℕ) (key : Key) →
        Run (opening count start) before u → Step u (Look c) v → IsCaller (bare v) c key Drained →
        Run v later w → NoneRunning (bare w) key }
{}

/// No slot gets another node while somebody holds it, and no key is used twice.
pub fn slots_kept()
    // A caller that holds a slot holds the slot's last generation.
    ensures held_last { (count start : ℕ) (events : List Event) (w : World) →
        Run (opening count start) events w →
        (c : ℕ) (key : Key) (phase : Phase) → IsCaller (bare w) c key phase → phase ≢ Spent →
        IsLast (bare w) key.slot key.generation }
    // When a node is born in a slot, only spent callers are on that slot.
    ensures unheld { (count start : ℕ) (events : List Event) (w w' : World) (key parent : Key) (name : List ℕ)
        (node : Node) →
        Run (opening count start) events w → Step w (Born key parent name node) w' →
        (c : ℕ) (held : Key) (phase : Phase) → IsCaller (bare w) c held phase → held.slot ≡ key.slot →
        phase ≡ Spent }
    // A key that was linked at any time, at the opening or by a birth, is not born again.
    ensures once { (count start : ℕ) (before between : List Event) (u v w : World) (key again parent : Key)
        (name : List ℕ) (node : Node) →
        Run (opening count start) before u → IsTrue (is_linked (bare u) key) → Run u between v →
        Step v (Born again parent name node) w → key ≢ again }
    // No key is born twice.
    ensures never_twice { (count start : ℕ) (before between : List Event) (t u v w : World)
        (key again parent next_parent : Key) (name next_name : List ℕ) (node next_node : Node) →
        Run (opening count start) before t → Step t (Born key parent name node) u → Run u between v →
        Step v (Born again next_parent next_name next_node) w → key ≢ again }
    // The tree and the list of slots agree on every key: whether it is linked, activated, doomed.
    ensures agree { (count start : ℕ) (events : List Event) (w : World) → Run (opening count start) events w →
        Agrees (tree w) (bare w) }
    // A record is hidden if and only if a caller hides its key.
    ensures hidden_told { (count start : ℕ) (events : List Event) (w : World) →
        Run (opening count start) events w → AgreesHidden (tree w) (bare w) }
{}

/// The laws of removal for bare worlds (without parents, names and nodes), in runs from any safe world.
pub fn no_call_after_drain()
    // Each world of the run is safe.
    ensures safe { (events : List Event) (w w' : BareWorld) → Safe w → BareRun w events w' → Safe w' }
    // A linked key that is doomed is never live again, so each try for a reference to it is refused.
    ensures marked { (later : List Event) (v w : BareWorld) (key : Key) →
        IsTrue (is_linked v key) → IsTrue (is_doomed v key) → BareRun v later w → IsFalse (is_live w key) }
    // If a caller is drained or parted on a key, nobody is running on that key from that moment on.
    ensures for_good { (later : List Event) (v w : BareWorld) (c : ℕ) (key : Key) (phase : Phase) →
        Safe v → IsCaller v c key phase → IsTrue (saw_drain phase) → BareRun v later w → NoneRunning w key }
    // Once a slot has a later generation, only spent callers are on its earlier keys from then on.
    ensures passed { (later : List Event) (v w : BareWorld) (key : Key) (generation : ℕ) →
        Safe v → IsLast v key.slot generation → key.generation < generation → BareRun v later w →
        NoneHolding w key }
    // A caller that is running after a step was running before it, or the step is its try on a live key.
    ensures starts { (w w' : BareWorld) (event : Event) (c : ℕ) (key : Key) → BareStep w event w' →
        IsCaller w' c key Running → IsCaller w c key Running ⊎ ((event ≡ Enter c) × IsTrue (is_live w key)) }
{}

/// A run with every kind of event: the whole life of a node, with two callers. It shows that the laws speak
/// of runs that exist.
///
/// 1. A file is born in the root, activated and renamed, and both callers pin it. The first enters.
/// 2. The second hides the file. When the first has left, the second sees that nobody uses the file. A try of
///    the first is now refused, and undone. The second shows the file again, and the first enters.
/// 3. The file is doomed. A try of the second is refused, and undone. The first breaks its protection, and
///    the second sees the drain. The first restores its protection: it has a reference again, but is not
///    Running.
/// 4. The second unlinks the file and sees that it is gone. The first leaves, and both release their holds.
///    Then the slot's next file is born.
pub fn a_life()
    ensures lives { Run (opening 2 0) whole_life
        (at 2 (Some (file_at second a fresh_marks)) (by Spent ∷ by Spent ∷ [])) }
{}

/// A key is in a subtree if and only if some number of steps up, each from a node to its directory, leads
/// from the key to the subtree's top.
pub fn subtrees_are_by_steps()
    ensures by_steps { (t : Tree) (top key : Key) → IsTrue (in_subtree t top key)
        ↔ ((n : ℕ) × (ancestor t n key ≡ Some top)) }
{}
