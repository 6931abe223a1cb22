//! What is behind a handle: a seat, which is a hold or a call, and an object beside it.
ghost use Rattle.std.specs.Prelude.{◌≡◌, true, false};
ghost use Rattle.kf_handles.specs.Calls.{IsNothing, is_nothing};
ghost use Rattle.kf_handles.specs.Files.{IsRunning};
ghost use Rattle.kf_handles.specs.Steps.{EndOwed, IsNotRunning};
ghost use Rattle.kf_handles.specs.Tasks.{IsInUse, IsNotInUse};

use crate::file::File;
use crate::holds::{Held, Inside};
use crate::tree::Tree;
use crate::tree_looker::TreeLooker;
use kf_notify::Post;
use kf_passes::{Gate, Way};

/// Nothing, a hold of a node, or a call of one. A call that a read began for a show is a separate variant,
/// since one more field would make each step slower.
#[derive(Drop)]
pub enum Seat {
    None,
    Hold(Held),
    Call(Inside),
    Show(Inside),
}

impl Seat {
    /// Whether the seat is a call that still has the reference with which it entered.
    pub fn is_running(&self) -> bool
        ensures yes { result ≡ true → IsRunning self.now }
        ensures no { result ≡ false → IsNotRunning self.now }
    {
        match self {
            Seat::Call(inside) => inside.is_running(),
            Seat::Show(inside) => inside.is_running(),
            _ => false,
        }
    }

    /// Drops the seat: a hold is released; a call is ended, and then its hold is released. Returns true if a
    /// sleeper at the node may be waiting for that.
    pub fn end(self) -> bool
        ensures { EndOwed self result }
    {
        match self {
            Seat::None => false,
            Seat::Hold(held) => held.end(),
            Seat::Call(inside) => inside.end(),
            Seat::Show(inside) => inside.end(),
        }
    }
}

/// What is behind a handle beside the seat.
#[derive(Drop)]
pub enum Object {
    Empty,
    Tree(Box<Tree>),
    Post(Post),
    File(Box<File>),
    Looker(Box<TreeLooker>),
    Gate(Box<Gate>),
    Pass(Way),
}

/// A seat and an object in their own memory. The words after them keep them off the cache lines of the next
/// place.
#[derive(Drop)]
pub struct Place {
    pub seat: Seat,
    pub object: Object,
    apart: [u64; 8],
}

impl Place {
    /// A place with this seat and this object.
    pub fn of(seat: Seat, object: Object) -> Place
        ensures seat { result.seat ≡ seat }
        ensures object { result.object ≡ object }
    {
        Place {
            seat,
            object,
            apart: [0; 8],
        }
    }

    /// Whether nothing is there.
    pub fn is_empty(&self) -> bool
        ensures nothing { result ≡ true → IsNothing self.now }
        ensures known { result ≡ is_nothing self.now }
    {
        match (&self.seat, &self.object) {
            (Seat::None, Object::Empty) => true,
            _ => false,
        }
    }

    /// Whether the object must not be dropped: it is a tree with a hidden file that somebody may be inside,
    /// a gate that is not closed, or a pass that is inside.
    pub fn is_in_use(&self) -> bool
        ensures used { result ≡ true → IsInUse self.now.object }
        ensures none { result ≡ false → IsNotInUse self.now.object }
    {
        match &self.object {
            Object::Tree(tree) => tree.is_hiding(),
            Object::Gate(gate) => gate.is_open(),
            Object::Pass(way) => way.is_inside(),
            _ => false,
        }
    }
}
