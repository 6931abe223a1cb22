//! Replies that are not in the output yet: those of a seat, and those of a round in the order of its lines.

ghost use Rattle.std.specs.Prelude.{◌≡◌, ◌≤◌, ◌<◌, ◌+◌, ◌++◌, ◌∷◌, [], ℕ, List, OnOk, OnErr, map, length};
ghost use Rattle.kf_rounds.specs.KindViews.{kind_view};
ghost use Rattle.kf_rounds.specs.Turns.{Puts, PutOut};
ghost use Rattle.kf_rounds.specs.Seats.{boards, untakens};

use crate::kind::LineKind;
use crate::runner::Runner;
use kf_script::Board;
use std::alloc::{AllocError, Global};
use std::marker::Model;

/// A queue of texts: the one that was added first is output first. All texts share one buffer, so that no
/// text needs an allocation for itself.
#[derive(Drop)]
pub struct Replies {
    bytes: Vec<u8>,
    lengths: Vec<usize>,
    // How many bytes and how many texts at the front have been output already.
    from: usize,
    taken: usize,
}

impl Model for Replies {
    ghost use Rattle.std.specs.Prelude.{◌≡◌, ◌≤◌, ◌+◌, List, ℕ, drop, length};
    ghost use Rattle.kf_rounds.specs.Pieces.{pieces, total};

    ghost Value = { List (List ℕ) };

    ghost view = { λ r. pieces (drop r.from r.bytes.items) (drop r.taken r.lengths.items) };

    ghost invariant = { λ r. (r.from + total (drop r.taken r.lengths.items) ≡ length r.bytes.items)
        × (r.taken ≤ length r.lengths.items) };
}

impl Replies {
    /// An empty queue.
    pub fn new(alloc: Global) -> Replies
        ensures { result ≡ [] }
    {
        Replies {
            bytes: Vec::new(alloc),
            lengths: Vec::new(alloc),
            from: 0,
            taken: 0,
        }
    }

    /// Removes all texts, and keeps their memory for later ones.
    pub fn clear(&mut self)
        ensures { self.new ≡ [] }
    {
        self.bytes.clear();
        self.lengths.clear();
        self.from = 0;
        self.taken = 0;
    }

    /// Adds a text at the end. If there is no memory, it returns `Err` and the queue is as before.
    pub fn add(&mut self, text: &[u8]) -> Result<(), AllocError>
        ensures added { OnOk result (self.new ≡ self.old ++ text.now ∷ []) }
        ensures same { OnErr result (self.new ≡ self.old) }
    {
        self.lengths.reserve(1)?;
        self.bytes.extend_from_slice(text)?;
        self.lengths.push_reserved(text.len());
        Ok(())
    }

    /// How many bytes the texts have at most, with a newline each. With this number the output can grow once
    /// instead of many times. No clause depends on it.
    pub fn size(&self) -> usize {
        self.bytes.len().saturating_add(self.lengths.len())
    }

    /// Moves the first text to the end of `out`, and adds a newline. Returns `Err` if there is no text, or no
    /// memory.
    pub fn put_next(&mut self, out: &mut Vec<u8>) -> Result<(), AllocError>
        ensures { OnOk result ((reply : List ℕ) × (self.old ≡ reply ∷ self.new)
            × (out.new.items ≡ out.old.items ++ reply ++ 10 ∷ [])) }
    {
        let at = self.taken;
        if at >= self.lengths.len() {
            return Err(AllocError);
        }
        let from = self.from;
        let end = from + self.lengths[at];
        put_line(out, &self.bytes[from..end])?;
        self.from = end;
        self.taken = at + 1;
        Ok(())
    }
}

/// How many bytes the replies of all seats have at most, with a newline each.
fn size_of_all<B: Board>(seats: &[Runner<B>]) -> usize {
    let mut size = 0usize;
    for seat in seats {
        size = size.saturating_add(seat.reply_size());
    }
    size
}

/// Adds a text and a newline to the end of `out`.
fn put_line(out: &mut Vec<u8>, text: &[u8]) -> Result<(), AllocError>
    ensures { OnOk result (out.new.items ≡ out.old.items ++ text.now ++ 10 ∷ []) }
{
    out.extend_from_slice(text)?;
    out.push(b'\n')?;
    Ok(())
}

/// Adds the reply to one line, and a newline, to the end of `out`.
fn put_reply<B: Board>(
    out: &mut Vec<u8>,
    seats: &mut [Runner<B>],
    kind: &LineKind<'_>,
) -> Result<(), AllocError>
    ensures put { OnOk result (Puts (kind_view kind.now) (untakens seats.old) (untakens seats.new)
        out.old.items out.new.items) }
    ensures boards { boards seats.new ≡ boards seats.old }
{
    match *kind {
        LineKind::Bad => put_line(out, b"err Line 22"),
        LineKind::EndsRound => put_line(out, b"ok"),
        LineKind::Command { seat, .. } => {
            let at = usize::from(seat);
            if at >= seats.len() {
                return Err(AllocError);
            }
            seats[at].put_next(out)
        }
    }
}

/// Adds the reply to each line, with a newline, to the end of `out`, in the order of the lines. Returns `Err`
/// if a seat is missing or has no reply for one of its lines, or if there is no memory.
pub fn put_replies<B: Board>(
    out: &mut Vec<u8>,
    seats: &mut [Runner<B>],
    kinds: &[LineKind<'_>],
) -> Result<(), AllocError>
    ensures put { OnOk result (PutOut (map kind_view kinds.now) (untakens seats.old) (untakens seats.new)
        out.old.items out.new.items) }
    ensures boards { boards seats.new ≡ boards seats.old }
{
    out.reserve(size_of_all(seats))?;
    for kind in kinds {
        put_reply(out, seats, kind)?;
    }
    Ok(())
}
