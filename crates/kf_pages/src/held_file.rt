//! A file opened with a hold of its node, over any source of event numbers and any holder of its page.

ghost use Rattle.std.specs.Prelude.{◌≡◌, ◌≤◌, ℕ, length, IsSome, IfOk, OnOk};
ghost use Rattle.kf_core.specs.Calls.{Visits, GivenBack};
ghost use Rattle.kf_core.specs.declared.caller.Phase.TheVariants.{Running};
ghost use Rattle.kf_pages.specs.Files.{Opens, Reads, Writes, Polls, TriesShow, Gives, Stored, new_file, tag_of, allows, slice, text_in_file, text_told};
ghost use Rattle.kf_pages.specs.Held.{held_after, held_refusal, tried_hold, tried_refusal};

use crate::contents::{Contents, Want};
use crate::event_numbers::EventNumbers;
use crate::hold::put_back;
use crate::ops::{Fault, FileError, Ops};
use crate::page_holder::PageHolder;
use kf_core::{ActiveCall, Guard, Node, Refusal};
use std::marker::Model;

/// A file opened with a hold of its node (`struct kernfs_open_file`). It keeps the hold and the page that
/// were passed in, until it is closed. The source of its slot's event numbers lies outside the file. Each
/// function that may take a number borrows the source.
#[derive(Drop)]
pub struct HeldFile<G: Guard, P: PageHolder> {
    // Empty only while a call has the hold.
    pub(crate) hold: Option<G::Hold>,
    pub(crate) tag: u64,
    pub(crate) contents: Contents<P>,
    ghost held: { IsSome hold },
}

impl<G: Guard, P: PageHolder> Model for HeldFile<G, P> {
    ghost use Rattle.kf_pages.specs.Held.{Held, hold_in};

    ghost Value = { Held G.Hold };

    ghost view = { λ f. record { hold = hold_in f.hold f.held; tag = f.tag; state = f.contents } };
}

/// Whether the mode lets the file be read and written as wanted.
fn allows(mode: u16, want: Want) -> bool
    ensures told { result ≡ allows mode want }
{
    (!want.read || mode & 0o444 != 0) && (!want.write || mode & 0o222 != 0)
}

/// Tests whether a file of this node may be opened as wanted, with at most one try of the hold. It returns
/// the hold with the node's tag, or with the reason for the refusal. (The page is not an argument, since each
/// way out of a function would have to move it by value.)
fn try_open<G: Guard>(
    guard: &mut G,
    hold: G::Hold,
    node: Node,
    want: Want,
) -> Result<(G::Hold, u64), (G::Hold, Refusal)>
    requires may_enter { G.may_enter guard.old hold }
    ensures opens { Opens
        (Visits G.enters G.refuses G.leaves G.Call.view_of (Unit {0}) (λ _. Unit {0})
        guard.old hold guard.new (tried_hold result))
        node want (tried_refusal result) }
    ensures tag { IfOk result (λ found. found.1 ≡ tag_of node) }
    ensures may_enter { G.may_enter guard.new (tried_hold result) }
{
    let (mode, tag) = match node {
        Node::Dir => return Err((hold, Refusal::IsDir)),
        Node::Link { target: _ } => return Err((hold, Refusal::Invalid)),
        Node::File { mode, tag } => (mode, tag),
    };
    let hold = match guard.enter(hold) {
        Ok(call) => guard.leave(call),
        Err(hold) => return Err((hold, Refusal::NoDevice)),
    };
    if !allows(mode, want) {
        return Err((hold, Refusal::Access));
    }
    Ok((hold, tag))
}

/// Stores the first 4,096 bytes, if there are any.
fn store_front<C: ActiveCall, O: Ops<C>>(
    ops: &mut O,
    call: &mut C,
    tag: u64,
    bytes: &[u8],
) -> Result<usize, Fault>
    requires running { (C.view_of call.old).phase ≡ Running }
    ensures stored { Stored O.stores ops.old tag bytes.now ops.new result }
    ensures call { GivenBack (C.view_of call.old) (C.view_of call.new) }
{
    if bytes.is_empty() {
        return Ok(0);
    }
    let end = bytes.len().min(4096);
    ops.store(call, tag, &bytes[..end])
}

impl<G: Guard, P: PageHolder> HeldFile<G, P> {
    /// Opens a file whose node is live (`kernfs_fop_open`). The file starts with no text and the event number
    /// 0.
    ///
    /// Condition: the hold may try for a reference, which each function of a guard ensures of a hold that it
    /// returns.
    ///
    /// Refusals, in order: `IsDir` (a directory), `Invalid` (a link), `NoDevice` (the node is not live),
    /// `Access` (reading if the mode has no bit of 0o444, or writing if it has none of 0o222). After a
    /// refusal, the hold and the page are returned.
    pub fn open(
        guard: &mut G,
        hold: G::Hold,
        node: Node,
        want: Want,
        page: P,
    ) -> Result<HeldFile<G, P>, (G::Hold, P, Refusal)>
        requires may_enter { G.may_enter guard.old hold }
        ensures opens { Opens
            (Visits G.enters G.refuses G.leaves G.Call.view_of (Unit {0}) (λ _. Unit {0})
            guard.old hold guard.new (held_after result))
            node want (held_refusal result) }
        ensures new { IfOk result (λ file. file.state ≡ new_file want) }
        ensures tag { IfOk result (λ file. file.tag ≡ tag_of node) }
        ensures may_enter { G.may_enter guard.new (held_after result) }
    {
        match try_open(guard, hold, node, want) {
            Ok((hold, tag)) => Ok(HeldFile {
                hold: Some(hold),
                tag,
                contents: Contents::new(want, page),
            }),
            Err((hold, refusal)) => Err((hold, page, refusal)),
        }
    }

    /// Reads the text, from this byte offset on, into the front of `out`, and returns how many bytes it read
    /// (`kernfs_fop_read_iter`). At offset 0, or if no text is buffered, it shows the text anew under a call,
    /// after it took the event number. Otherwise it reads the buffered text, which needs no live node and
    /// takes no number.
    ///
    /// Condition: the file's hold may try for a reference, which `open` and each function here ensure.
    ///
    /// Refusals, in order: `Access` if the file was not opened for reading, `NoDevice` if the node is not
    /// live; both change nothing. A fault of the show is returned as `Callback`, and then there is no text.
    /// The rest of `out` stays as it was, and all of it does after an error.
    pub fn read<O: Ops<G::Call>, N: EventNumbers<G::Call>>(
        &mut self,
        guard: &mut G,
        ops: &mut O,
        numbers: &mut N,
        offset: u64,
        out: &mut [u8],
    ) -> Result<usize, FileError>
        requires may_enter { G.may_enter guard.old self.old.hold }
        ensures reads { Reads
            (Visits G.enters G.refuses G.leaves G.Call.view_of
            ((ops.new ≡ ops.old) × (numbers.new ≡ numbers.old))
            (λ shown. N.gives numbers.old shown.number numbers.new
            × O.shows ops.old self.old.tag shown.filled ops.new)
            guard.old self.old.hold guard.new self.new.hold)
            (Gives out.old result out.new) self.old.state offset (length out.old) self.new.state }
        ensures fits { IfOk result (λ count. count ≤ length out.new) }
        ensures same { self.new ≡ record self.old { hold = self.new.hold; state = self.new.state } }
        ensures may_enter { G.may_enter guard.new self.new.hold }
    {
        match self.prepare(guard, ops, numbers, offset) {
            Ok(()) => {
                let text = self.text_from(offset, out.len());
                out[..text.len()].copy_from_slice(text);
                Ok(text.len())
            }
            Err(error) => Err(error),
        }
    }

    /// Makes the text of a read at this offset ready for [`HeldFile::text_from`]. This is the first half of
    /// [`HeldFile::read`], with its condition and its refusals, for a caller that has no buffer.
    pub fn prepare<O: Ops<G::Call>, N: EventNumbers<G::Call>>(
        &mut self,
        guard: &mut G,
        ops: &mut O,
        numbers: &mut N,
        offset: u64,
    ) -> Result<(), FileError>
        requires may_enter { G.may_enter guard.old self.old.hold }
        ensures reads { (count : ℕ) → Reads
            (Visits G.enters G.refuses G.leaves G.Call.view_of
            ((ops.new ≡ ops.old) × (numbers.new ≡ numbers.old))
            (λ shown. N.gives numbers.old shown.number numbers.new
            × O.shows ops.old self.old.tag shown.filled ops.new)
            guard.old self.old.hold guard.new self.new.hold)
            (λ answer. answer ≡ text_told self.new.state offset count result)
            self.old.state offset count self.new.state }
        ensures text { OnOk result (IsSome self.new.state.text) }
        ensures same { self.new ≡ record self.old { hold = self.new.hold; state = self.new.state } }
        ensures may_enter { G.may_enter guard.new self.new.hold }
    {
        if !self.contents.want().read {
            return Err(FileError::Refused(Refusal::Access));
        }
        if self.contents.serves(offset) {
            return Ok(());
        }
        self.show(guard, ops, numbers)
    }

    /// Returns at most `most` bytes of the buffered text, from the offset on.
    ///
    /// Condition: a text is buffered, as it is after `prepare` returned Ok.
    pub fn text_from(&self, offset: u64, most: usize) -> &[u8]
        requires text { IsSome self.now.state.text }
        ensures bytes { result.now ≡ slice (text_in_file self.now.state) offset most }
    {
        self.contents.text_from(offset, most)
    }

    /// Tries for a call, and shows the text anew under it.
    fn show<O: Ops<G::Call>, N: EventNumbers<G::Call>>(
        &mut self,
        guard: &mut G,
        ops: &mut O,
        numbers: &mut N,
    ) -> Result<(), FileError>
        requires may_enter { G.may_enter guard.old self.old.hold }
        ensures shows { TriesShow
            (Visits G.enters G.refuses G.leaves G.Call.view_of
            ((ops.new ≡ ops.old) × (numbers.new ≡ numbers.old))
            (λ shown. N.gives numbers.old shown.number numbers.new
            × O.shows ops.old self.old.tag shown.filled ops.new)
            guard.old self.old.hold guard.new self.new.hold)
            self.old.state result self.new.state }
        ensures same { self.new ≡ record self.old { hold = self.new.hold; state = self.new.state } }
        ensures may_enter { G.may_enter guard.new self.new.hold }
    {
        let Some(hold) = self.hold.take() else {
            unreachable!()
        };
        let mut call = match guard.enter(hold) {
            Ok(call) => call,
            Err(hold) => {
                put_back(&mut self.hold, hold);
                return Err(FileError::Refused(Refusal::NoDevice));
            }
        };
        let shown = self.contents.show(ops, numbers, &mut call, self.tag);
        let hold = guard.leave(call);
        put_back(&mut self.hold, hold);
        shown
    }

    /// Passes the first 4,096 bytes to one store under a call, and returns what the store returned, a fault
    /// as `Callback` (`kernfs_fop_write_iter`). A write of no bytes returns 0 and makes no callback, but it
    /// needs a live node too. The file stays as it was.
    ///
    /// Condition: the file's hold may try for a reference, which `open` and each function here ensure.
    ///
    /// Refusals, in order: `Access` if the file was not opened for writing, `NoDevice` if the node is
    /// not live.
    pub fn write<O: Ops<G::Call>>(
        &mut self,
        guard: &mut G,
        ops: &mut O,
        bytes: &[u8],
    ) -> Result<usize, FileError>
        requires may_enter { G.may_enter guard.old self.old.hold }
        ensures writes { Writes
            (Visits G.enters G.refuses G.leaves G.Call.view_of (ops.new ≡ ops.old)
            (Stored O.stores ops.old self.old.tag bytes.now ops.new)
            guard.old self.old.hold guard.new self.new.hold)
            self.old.state result }
        ensures same { self.new ≡ record self.old { hold = self.new.hold } }
        ensures may_enter { G.may_enter guard.new self.new.hold }
    {
        if !self.contents.want().write {
            return Err(FileError::Refused(Refusal::Access));
        }
        let Some(hold) = self.hold.take() else {
            unreachable!()
        };
        match guard.enter(hold) {
            Ok(mut call) => {
                let stored = store_front(ops, &mut call, self.tag, bytes);
                let hold = guard.leave(call);
                put_back(&mut self.hold, hold);
                Ok(stored?)
            }
            Err(hold) => {
                put_back(&mut self.hold, hold);
                Err(FileError::Refused(Refusal::NoDevice))
            }
        }
    }

    /// Returns whether the file has changed since its last show or binary read (`kernfs_fop_poll`). It has
    /// changed if the slot's event number, taken under a call, differs from the one that the file keeps, or
    /// if the node is not live. Before its first show or binary read a file has the number 0, so it has
    /// changed if event numbers begin at 1 or more. The number that the file keeps stays.
    ///
    /// Condition: the file's hold may try for a reference, which `open` and each function here ensure.
    pub fn poll<N: EventNumbers<G::Call>>(&mut self, guard: &mut G, numbers: &mut N) -> bool
        requires may_enter { G.may_enter guard.old self.old.hold }
        ensures polls { Polls
            (Visits G.enters G.refuses G.leaves G.Call.view_of (numbers.new ≡ numbers.old)
            (λ now. N.gives numbers.old now numbers.new)
            guard.old self.old.hold guard.new self.new.hold)
            self.old.state result }
        ensures same { self.new ≡ record self.old { hold = self.new.hold } }
        ensures may_enter { G.may_enter guard.new self.new.hold }
    {
        let Some(hold) = self.hold.take() else {
            unreachable!()
        };
        match guard.enter(hold) {
            Ok(call) => {
                let now = numbers.now(&call);
                let hold = guard.leave(call);
                put_back(&mut self.hold, hold);
                now != self.contents.number()
            }
            Err(hold) => {
                put_back(&mut self.hold, hold);
                true
            }
        }
    }

    /// The event number that was taken for the file's last show or binary read, or 0 before the first.
    pub fn number(&self) -> u64
        ensures known { result ≡ self.now.state.number }
    {
        self.contents.number()
    }

    /// Closes the file, and returns its hold and its page (`kernfs_fop_release`).
    pub fn close(self) -> (G::Hold, P)
        ensures hold { result.0 ≡ self.hold }
    {
        let HeldFile {
            hold,
            tag: _,
            contents,
        } = self;
        (hold.unwrap(), contents.into_page())
    }
}
