//! Look-ups, which find the node to which a path leads, without the lock.
ghost use Rattle.std.specs.Prelude.{◌≡◌, ◌≢◌, ◌<◌, true, false, List, Some, IfOk, IfSome, slice_index};
ghost use Rattle.std.specs.List.{list_any, slice_split};
ghost use Rattle.kf_looks.specs.Lines.{bytes_in, link_at, link_by};
ghost use Rattle.kf_looks.specs.Links.{link, top, walked, child_of, IsLater};
ghost use Rattle.kf_looks.specs.Lookers.{seen};
ghost use Rattle.kf_looks.specs.Packed.{key_of, found_of};
ghost use Rattle.kf_core.specs.Paths.{is_slash, is_empty};
ghost use Rattle.kf_looks.specs.Paths.{led};
ghost use Rattle.kf_looks.specs.Reading.{IsSameSeat, Follows, Tells, Stands};

use crate::found::{Found, FoundAt};
use crate::lookup_table::LookupTable;
use crate::packed::{DIR, child_in, key_in, key_word, node_in};
use crate::path::first_part;
use crate::reader::Looker;
use crate::short_name::ShortName;
use crate::table::LookSeat;
use kf_core::{Key, Node};
use std::hint::spin_loop;

/// How many times a look-up tries. One try takes about a tenth of a microsecond, and so does the change of
/// one node, so nearly every look-up succeeds within a few tries. The bound keeps a look-up from spinning
/// beside a writer that never pauses. After some microseconds it is better to wait for the lock.
const TRIES: u32 = 64;

/// Why one try of a look-up found nothing.
enum Miss {
    /// The words have no such path. Another try would find the same.
    NotThere,
    /// The version was odd, or it changed during the try. Another try may find the path.
    Changed,
}

/// The node that a walk has reached: what the words say of it, and the line that it may have itself.
#[derive(Clone, Copy)]
struct Here {
    line: u64,
    key: u64,
    more: u64,
    shape: u64,
}

impl Here {
    /// The node that the walk has reached.
    fn found(self) -> Found
        requires some { self.shape ≢ 0 }
        ensures same { result ≡ found_of self.key self.more self.shape }
    {
        Found {
            key: key_in(self.key),
            node: node_in(self.shape, self.more),
        }
    }
}

/// The child that a line gives to this name in this directory.
#[inline(always)]
pub(crate) fn child_there(line: &[u64; 8], dir: u64, name: &ShortName) -> Option<Found>
    ensures dir { IfSome result (λ child. slice_index line.now 0 ≡ dir) }
    ensures name { IfSome result (λ child. (link_by (slice_index line.now)).name ≡ bytes_in name.now) }
    ensures child { IfSome result (λ child. (link_by (slice_index line.now)).child ≡ Some child) }
{
    if line[0] != dir
        || line[1] != name.count
        || line[2] != name.first
        || line[3] != name.second
        || line[4] != name.third
    {
        return None;
    }
    child_in(line[5], line[6], line[7])
}

impl LookupTable {
    /// What a line says of its child, if the line says that the child has this name in this directory.
    #[inline(always)]
    fn child_at(&self, seat: &mut LookSeat, line: usize, dir: u64, name: &ShortName) -> Option<Here>
        requires table { seat.old.table_id ≡ self.now.table.shared.table_id }
        requires inside { line < self.now.slots }
        ensures same { IsSameSeat seat.old seat.new }
        ensures some { IfSome result (λ child. child.shape ≢ 0) }
        ensures read { IfSome result (λ child. Follows seat.old.me.0.role seat.new.me.0.role
            (λ content. link_at content line ≡ link (key_of dir) (bytes_in name.now)
            (Some (found_of child.key child.more child.shape)))) }
    {
        let at = 8 * line;
        if self.word(seat, at) != dir {
            return None;
        }
        if self.word(seat, at + 1) != name.count {
            return None;
        }
        if self.word(seat, at + 2) != name.first {
            return None;
        }
        if self.word(seat, at + 3) != name.second {
            return None;
        }
        if self.word(seat, at + 4) != name.third {
            return None;
        }
        let (key, more) = (self.word(seat, at + 5), self.word(seat, at + 6));
        let shape = self.word(seat, at + 7);
        if shape == 0 {
            return None;
        }
        let line = line as u64;
        Some(Here {
            line,
            key,
            more,
            shape,
        })
    }

    /// The child that a name has in a directory, according to the words that were read. The line that the
    /// directory may have is not trusted.
    #[inline(always)]
    fn step(&self, seat: &mut LookSeat, dir: &Here, name: &ShortName) -> Option<Here>
        requires table { seat.old.table_id ≡ self.now.table.shared.table_id }
        requires slots { seat.old.me.0.slots ≡ self.now.slots }
        ensures same { IsSameSeat seat.old seat.new }
        ensures some { IfSome result (λ child. child.shape ≢ 0) }
        ensures found { IfSome result (λ child. Follows seat.old.me.0.role seat.new.me.0.role
            (Tells self.now.slots (λ links. child_of links (key_of dir.now.key) (bytes_in name.now)
            ≡ Some (found_of child.key child.more child.shape)))) }
    {
        let line = self.hinted(seat, self.place(dir.line, name))?;
        if line as u64 >= self.slots {
            return None;
        }
        let child = self.child_at(seat, line, dir.key, name)?;
        Some(child)
    }

    /// The node to which the parts of a text lead one after another, according to the words that were read.
    fn follow(&self, seat: &mut LookSeat, from: Key, parts: &[u8]) -> Option<Found>
        requires table { seat.old.table_id ≡ self.now.table.shared.table_id }
        requires slots { seat.old.me.0.slots ≡ self.now.slots }
        ensures same { IsSameSeat seat.old seat.new }
        ensures named { IfSome result (λ last. list_any is_empty (slice_split is_slash parts.now) ≡ false) }
        ensures found { IfSome result (λ last. Follows seat.old.me.0.role seat.new.me.0.role
            (Tells self.now.slots
            (λ links. walked links (top from) (slice_split is_slash parts.now) ≡ Some last))) }
    {
        let mut here = Here {
            line: from.slot as u64,
            key: key_word(from),
            more: 0,
            shape: DIR,
        };
        let mut rest = Some(parts);
        while let Some(text) = rest {
            let (part, more) = first_part(text);
            let name = ShortName::at_front(text, part.len())?;
            here = self.step(seat, &here, &name)?;
            rest = more;
        }
        Some(here.found())
    }

    /// The node to which a path leads, according to the words that were read.
    fn lead(&self, seat: &mut LookSeat, root: Key, path: &[u8]) -> Option<Found>
        requires table { seat.old.table_id ≡ self.now.table.shared.table_id }
        requires slots { seat.old.me.0.slots ≡ self.now.slots }
        ensures same { IsSameSeat seat.old seat.new }
        ensures found { IfSome result (λ last. Follows seat.old.me.0.role seat.new.me.0.role
            (Tells self.now.slots (λ links. led links root path.now ≡ Some last))) }
    {
        let [b'/', parts @ ..] = path else {
            return None;
        };
        if parts.is_empty() {
            return Some(Found {
                key: root,
                node: Node::Dir,
            });
        }
        let last = self.follow(seat, root, parts)?;
        Some(last)
    }

    /// One try of [`LookupTable::look`].
    #[inline(always)]
    fn look_once(&self, looker: &mut Looker, root: Key, path: &[u8]) -> Result<FoundAt, Miss>
        requires table { looker.old.seat.table_id ≡ self.now.table.shared.table_id }
        ensures table { looker.new.seat.table_id ≡ looker.old.seat.table_id }
        ensures later { IsLater (seen looker.new) (seen looker.old) }
        ensures found { IfOk result
            (λ sight. led (seen looker.new) root path.now ≡ Some sight.found) }
        ensures stands { IfOk result (λ sight. Stands looker.new.seat.me.0 sight.version
            (λ links. led links root path.now ≡ Some sight.found)) }
    {
        let version = self.begin(&mut looker.seat);
        if version % 2 != 0 {
            return Err(Miss::Changed);
        }
        let found = self.lead(&mut looker.seat, root, path);
        if self.check(&mut looker.seat) != version {
            return Err(Miss::Changed);
        }
        match found {
            Some(found) => Ok(FoundAt { found, version }),
            None => Err(Miss::NotThere),
        }
    }

    /// The node to which a path leads from a directory, by the links that the reader has seen when this
    /// returns. These are all that it had seen before, and maybe later ones. It takes no lock, writes nothing
    /// and waits for nobody. Each try loads the version at most twice and, for each name, up to 16 hints and
    /// up to eight words of a line. If a change came during a try, it tries again. It makes at most 64 tries.
    ///
    /// None is not a refusal: ask under the lock then. It means that a name is longer than 24 bytes, is not
    /// there, or has no line or no hint, that the path has another form, or that a change came during each
    /// try.
    ///
    /// Condition: the reader is of this table.
    pub fn look(&self, looker: &mut Looker, root: Key, path: &[u8]) -> Option<FoundAt>
        requires table { looker.old.seat.table_id ≡ self.now.table.shared.table_id }
        ensures table { looker.new.seat.table_id ≡ looker.old.seat.table_id }
        ensures later { IsLater (seen looker.new) (seen looker.old) }
        ensures found { IfSome result
            (λ sight. led (seen looker.new) root path.now ≡ Some sight.found) }
        ensures stands { IfSome result (λ sight. Stands looker.new.seat.me.0 sight.version
            (λ links. led links root path.now ≡ Some sight.found)) }
    {
        let tries = if self.slots == 0 { 0 } else { TRIES };
        for _ in 0..tries {
            match self.look_once(looker, root, path) {
                Ok(sight) => return Some(sight),
                Err(Miss::NotThere) => return None,
                Err(Miss::Changed) => spin_loop(),
            }
        }
        None
    }

    /// Whether the version is still the one of the sight, by one load. If so, what was found is true of the
    /// links that the reader has seen when this returns: all that it had seen before, and maybe later ones.
    /// If not, a change was begun since, maybe of another name.
    ///
    /// Condition: the sight is from this reader's last `look`, with this root and path, after which at most
    /// `again` was called.
    pub fn again(&self, looker: &mut Looker, sight: &FoundAt, root: Key, path: &[u8]) -> bool
        requires table { looker.old.seat.table_id ≡ self.now.table.shared.table_id }
        requires stands { Stands looker.old.seat.me.0 sight.now.version
            (λ links. led links root path.now ≡ Some sight.now.found) }
        ensures table { looker.new.seat.table_id ≡ looker.old.seat.table_id }
        ensures later { IsLater (seen looker.new) (seen looker.old) }
        ensures kept { Stands looker.new.seat.me.0 sight.now.version
            (λ links. led links root path.now ≡ Some sight.now.found) }
        ensures found { result ≡ true
            → led (seen looker.new) root path.now ≡ Some sight.now.found }
    {
        // Only the contract uses these arguments.
        let _ = root;
        let _ = path.len();
        self.check(&mut looker.seat) == sight.version
    }
}
