//! Theorems about the definitions that the contracts cite.

ghost use Rattle.std.specs.Prelude.{◌≡◌, ◌↔◌, ℕ, List, Option, None, false};
ghost use Rattle.kf_core.specs.declared.key.Key.{Key};
ghost use Rattle.kf_core.specs.declared.command.Command.{Command};
ghost use Rattle.kf_core.specs.Lawful.{Lawful};
ghost use Rattle.kf_core.specs.PostOrder.{IsPostOrder};
ghost use Rattle.kf_core.specs.Tree.{Tree};
ghost use Rattle.kf_core.specs.Worlds.{MayMove};
ghost use Rattle.kf_table.specs.Children.{is_there_already};
ghost use Rattle.kf_tree.specs.Canonical.{IsCanonical};
ghost use Rattle.kf_tree.specs.Causes.{rename_cause};
ghost use Rattle.kf_tree.specs.Links.{HasLinkText};
ghost use Rattle.kf_tree.specs.Listing.{IsListing};

/// A listing, a post-order, a canonical list of commands and the text of a link are unique. The contracts say
/// what each of them has to be, and not how it is found. There is only one such result, so the contract of
/// a call that returns one determines the result.
pub fn answers_are_unique()
    // A directory has one listing above a bound, for each limit.
    ensures listing { (t : Tree) (dir : Key) (bound : Option (List ℕ)) (limit : ℕ) (a b : List (List ℕ)) →
        IsListing t dir bound limit a → IsListing t dir bound limit b → a ≡ b }
    // A subtree has one post-order.
    ensures post_order { (t : Tree) (root top : Key) (a b : List Key) → Lawful t root →
        IsPostOrder t top a → IsPostOrder t top b → a ≡ b }
    // A tree has one canonical list of commands.
    ensures canonical { (t : Tree) (root : Key) (a b : List Command) → Lawful t root →
        IsCanonical t a → IsCanonical t b → a ≡ b }
    // A link has one text.
    ensures link_text { (t : Tree) (root key : Key) (a b : List ℕ) → Lawful t root →
        HasLinkText t root key a → HasLinkText t root key b → a ≡ b }
{}

/// The rule for renames is stated twice, and both statements agree. A rename has no cause against it, and
/// moves its node somewhere else, if and only if a run of the world may take it as a step.
pub fn renames_have_one_rule()
    ensures one_rule { (t : Tree) (root key dir : Key) (name : List ℕ) → Lawful t root →
        MayMove t key dir name
        ↔ ((rename_cause t root key dir name ≡ None) × (is_there_already t key dir name ≡ false)) }
{}
