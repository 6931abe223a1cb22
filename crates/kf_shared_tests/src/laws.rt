//! A law which shows that the premises of `running_tree` can be met: a run that removes a node meets them.
ghost use Rattle.kf_shared_tests.specs.Life.{TreeLives};

/// There is a run of words beside a tree, from the opening of both on. A node is made, a caller runs on it,
/// the node is marked, drained and taken out, and the next node is made in its slot. After each of these
/// steps the tree's lock is free, and its value is whole: the history has made the tree, the claims and the
/// stored commands. So each premise of the clauses of `running_tree` is met at one of these moments, except
/// that of a hidden file, which `words_life` meets. The function does nothing.
pub fn tree_life()
    ensures lives { TreeLives }
{}
