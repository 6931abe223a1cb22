//! The laws of the running tree and of its callers.
ghost use Rattle.kf_shared.specs.LookUps.{LookUpsStart, LookUpsAreOfRun, LookUpsGoOn};
ghost use Rattle.kf_shared.specs.Running.{StartsWell, IsReplay, IsOfHistory, TreeAgrees, StartsLive, TakenWhileLive, RunsLinked, MarkedForGood, RemovedForGood, PartedForGood, HiddenIsStill, HeldNotGiven, HeldIsLast, GoneForGood};

/// What holds at the end of every run of atomic steps, of any number of seats in any order, whenever the
/// tree's lock is free then. The function does nothing: its clauses say what follows from what the lock
/// guards and from the rule of the words, which a new tree meets.
///
/// - The tree is the replay of its stored commands. Tree, claims and stored commands are those of the history
///   that the Master has seen, which is all of it (`words_kept`). The tree says of each key what the words
///   say.
///
/// - A try lets its caller run if and only if its node is live in the tree and nobody hides the node. In a
///   run that begins with a new tree, every caller that is Running was let in by a try that found the key
///   live in the words. Nobody runs on a node that is out of the tree.
///
/// - Once a node is marked, each try on it is refused from then on, and it is never live in the tree.
///
/// - Once a removal's receipt exists, nobody runs on its node from then on, and the node is not live in the
///   tree. Once the receipt is parted, the node is never in the tree again.
///
/// - While a caller is Hidden on a file, nobody runs on the file.
///
/// - A birth finds nobody that holds its slot. So in the slot of a key that somebody holds, no other key is
///   in the tree. Once a slot has been given again, from then on nobody holds an earlier key of it, and no
///   such key is linked.
///
/// A caller is Running if it has a reference that it took while the node was live. A caller that broke its
/// protection is not Running: it may still be in its callback after a removal, and can start no callback.
pub fn running_tree()
    ensures starts_well { StartsWell }
    ensures is_replay { IsReplay }
    ensures is_of_history { IsOfHistory }
    ensures tree_agrees { TreeAgrees }
    ensures starts_live { StartsLive }
    ensures taken_while_live { TakenWhileLive }
    ensures runs_linked { RunsLinked }
    ensures marked_for_good { MarkedForGood }
    ensures removed_for_good { RemovedForGood }
    ensures parted_for_good { PartedForGood }
    ensures hidden_is_still { HiddenIsStill }
    ensures held_not_given { HeldNotGiven }
    ensures held_is_last { HeldIsLast }
    ensures gone_for_good { GoneForGood }
{}

/// What holds of all that look-ups have seen, in any state of their words that their rule allows, whenever
/// the tree's lock is free and these are the words of its tree. The function does nothing: its clauses say
/// what follows from what the lock guards.
///
/// A look-up finds what a tree of the one run has. There is a beginning of the history, and in the tree that
/// it made, the path leads to the node that was found, and this node is live and of the kind that was found.
/// While a command changes several nodes, it passes through states that are not such a tree, so no look-up
/// finds one of these states. What the same looker finds later is of a later tree, or of the same one.
pub fn look_ups_are_of_run()
    ensures start { LookUpsStart }
    ensures of_run { LookUpsAreOfRun }
    ensures go_on { LookUpsGoOn }
{}
