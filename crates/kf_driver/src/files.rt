//! Opens files by their paths, and raises the event numbers of files by their names.
ghost use Rattle.std.specs.Prelude.{◌≡◌, ◌⊎◌, ℕ, IfOk, IfErr, MatchResult, Ok, true};
ghost use Rattle.kf_core.specs.declared.key.Node.TheVariants.{File};
ghost use Rattle.kf_pages.specs.Files.{new_file, allows};
ghost use Rattle.kf_notify.specs.PostStates.{IsNewPost};
ghost use Rattle.kf_tree.specs.Paths.{found};
ghost use Rattle.kf_driver.specs.Opening.{file_at, IsPostAt, OpenedAt, OpenRefused, PostRefused, NotOpened, Notified, RaisedTo, FoundLast};

use kf_core::{Key, Node, Refusal};
use kf_files::{Page, PageHolder, WaitingFile, Want};
use kf_notify::{Full, Post, Posts};
use kf_shared::{Editor, Naming};
use kf_tree::State;
use kf_words::Hold;

// The key, if its node is a file.
fn only_file(state: &State, key: Key) -> Result<Key, Refusal>
    ensures file { result ≡ file_at state.now.tree (Ok key) }
{
    match state.stat(key)?.node {
        Node::Dir => Err(Refusal::IsDir),
        Node::Link { .. } => Err(Refusal::Invalid),
        Node::File { .. } => Ok(key),
    }
}

// Makes a post of this slot.
fn slot_post(posts: &mut Posts, slot: u32) -> Result<Post, Refusal>
    ensures made { IfOk result (λ post. IsNewPost posts.old slot post) }
    ensures refused { IfErr result (λ refusal. PostRefused posts.old.slots slot refusal) }
    ensures same { posts.new ≡ posts.old }
{
    if slot >= posts.slots() {
        return Err(Refusal::NoSpace);
    }
    posts.post(slot)
}

// Opens the file of a hold (whose node is a file), with this page. After a refusal the hold is released, and
// the page is dropped.
#[tactic(auto, using(crate::proofs::Openings::opened, crate::proofs::Openings::refused))]
pub(crate) fn open_held<N: Naming, P: PageHolder + Drop>(
    hold: Hold,
    posts: &mut Posts,
    want: Want,
    page: P,
) -> Result<WaitingFile<N, P>, Refusal>
    requires table { hold.table ≡ N.table }
    ensures held { IfOk result (λ file. (mode tag : ℕ) → hold.node ≡ File mode tag
        → (file.hold.key ≡ hold.key) × (file.hold.node ≡ hold.node) × (file.tag ≡ tag)
        × (allows mode want ≡ true)) }
    ensures fresh { IfOk result (λ file. IsNewPost posts.old hold.key.slot file.post) }
    ensures new { IfOk result (λ file. file.state ≡ new_file want) }
    ensures refused { IfErr result (λ refusal. (mode tag : ℕ) → hold.node ≡ File mode tag
        → PostRefused posts.old.slots hold.key.slot refusal ⊎ NotOpened mode want refusal) }
    ensures posts { posts.new ≡ posts.old }
{
    let node = hold.node();
    let post = match slot_post(posts, hold.key().slot) {
        Ok(post) => post,
        Err(refusal) => {
            hold.release();
            return Err(refusal);
        }
    };
    match WaitingFile::<N, P>::open_on(hold, node, want, post, page) {
        Ok(file) => Ok(file),
        Err((hold, _, _, refusal)) => {
            hold.release();
            Err(refusal)
        }
    }
}

/// Opens the file that a path names, while the caller has the tree locked. ([`crate::Opener`] opens files
/// without the lock.)
///
/// Refusals, in order: those of [`State::lookup`]; IsDir (the node is a directory), Invalid (the node is a
/// link); TooManyHolds (the node already has the greatest number of holds), NoMemory; NoSpace (the posts have
/// no number for the slot), NoMemory; NoDevice and Access, as [`WaitingFile::open`] returns them. After a
/// refusal the slot has the same holds as before.
pub fn open_path<N: Naming>(
    editor: &mut Editor<'_, N>,
    posts: &mut Posts,
    path: &[u8],
    want: Want,
) -> Result<WaitingFile<N>, Refusal>
    ensures opened { IfOk result
        (λ file. OpenedAt editor.old.state.tree editor.old.state.root posts.old path.now want file) }
    ensures refused { IfErr result
        (λ refusal. OpenRefused editor.old editor.new.master.view posts.old.slots path.now want refusal) }
    ensures state { editor.new.state ≡ editor.old.state }
    ensures claims { editor.new.claims ≡ editor.old.claims }
    ensures posts { posts.new ≡ posts.old }
{
    open_path_on(editor, posts, path, want, Page::new())
}

/// Like [`open_path`], but with a page that the caller passes in (see [`WaitingFile::open_on`]). If that page
/// is in a box, none of its 4,096 bytes is moved. After a refusal the page is dropped.
pub fn open_path_on<N: Naming, P: PageHolder + Drop>(
    editor: &mut Editor<'_, N>,
    posts: &mut Posts,
    path: &[u8],
    want: Want,
    page: P,
) -> Result<WaitingFile<N, P>, Refusal>
    ensures opened { IfOk result
        (λ file. OpenedAt editor.old.state.tree editor.old.state.root posts.old path.now want file) }
    ensures refused { IfErr result
        (λ refusal. OpenRefused editor.old editor.new.master.view posts.old.slots path.now want refusal) }
    ensures state { editor.new.state ≡ editor.old.state }
    ensures claims { editor.new.claims ≡ editor.old.claims }
    ensures posts { posts.new ≡ posts.old }
{
    let place = editor.state().lookup(path)?;
    let key = only_file(editor.state(), place)?;
    let hold = editor.hold(key)?;
    open_held(hold, posts, want, page)
}

/// Makes an event counter (a post) of the file with this name in a directory. A driver uses it to notify
/// pollers that the file has changed ([`Post::notify`], without a look-up). Making it raises no number.
///
/// The event counter belongs to the slot. Once the file is removed, it counts for the next node that gets
/// this slot.
///
/// Refusals, in order: those of [`State::find`]; IsDir (the node is a directory), Invalid (the node is a
/// link); NoSpace (the posts have no number for the slot), NoMemory.
pub fn post_of(state: &State, posts: &mut Posts, dir: Key, name: &[u8]) -> Result<Post, Refusal>
    ensures made { IfOk result
        (λ post. IsPostAt state.now.tree (found state.now.tree dir name.now) posts.old post) }
    ensures refused { IfErr result (λ refusal.
        MatchResult (file_at state.now.tree (found state.now.tree dir name.now))
        (λ key. PostRefused posts.old.slots key.slot refusal) (λ why. refusal ≡ why)) }
    ensures posts { posts.new ≡ posts.old }
{
    let place = state.find(dir, name)?;
    let file = only_file(state, place)?;
    slot_post(posts, file.slot)
}

/// Notifies pollers that the file with this name in a directory has changed (`sysfs_notify`). Returns the
/// slot's new event number, and the event counter that made it. If the counter found the greatest number,
/// 2^64 - 1, then no number was raised, and `Full` is returned in place of a number.
///
/// A driver that notifies often gets a post from [`post_of`], or keeps the one that is returned here, and
/// calls [`Post::notify`].
///
/// Refusals, in order: those of [`State::find`]; IsDir (the node is a directory), Invalid (the node is a
/// link); NoSpace (the posts have no number for the slot), NoMemory. After a refusal no number was raised.
#[tactic(auto, using(crate::proofs::Told::told, crate::proofs::Told::raised, crate::proofs::Told::last))]
pub fn notify(
    state: &State,
    posts: &mut Posts,
    dir: Key,
    name: &[u8],
) -> Result<(Result<u64, Full>, Post), Refusal>
    ensures told { IfOk result
        (λ answer. Notified state.now.tree (found state.now.tree dir name.now) posts.old answer.1) }
    ensures raised { IfOk result (λ answer. IfOk answer.0 (λ number. RaisedTo number answer.1)) }
    ensures full { IfOk result (λ answer. IfErr answer.0 (λ _. FoundLast answer.1)) }
    ensures refused { IfErr result (λ refusal.
        MatchResult (file_at state.now.tree (found state.now.tree dir name.now))
        (λ key. PostRefused posts.old.slots key.slot refusal) (λ why. refusal ≡ why)) }
    ensures posts { posts.new ≡ posts.old }
{
    let place = state.find(dir, name)?;
    let key = only_file(state, place)?;
    let mut post = slot_post(posts, key.slot)?;
    let number = post.notify();
    Ok((number, post))
}
