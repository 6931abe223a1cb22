//! The registry in one thread: each call, and each refusal in its order.
ghost use Rattle.std.specs.Prelude.{◌≡◌};

use crate::registry::counted::{Counted, back};
use crate::registry::crowd::own_caller;
use kf_core::Refusal;
use kf_registry::{NewRegistry, Registry, ValueCaller};
use kf_shared::Naming;
use std::process::Abort;
use std::sync::Wait;

/// Publishes a value. Returns None, or the number of the returned value and the refusal.
fn refused_of<N: Naming, R: Wait>(
    rt: &R,
    registry: &Registry<N, Counted>,
    caller: &mut ValueCaller<N>,
    path: &[u8],
    number: u64,
) -> Option<(u64, Refusal)> {
    match registry.publish(rt, caller, path, Counted::new(number)) {
        Ok(()) => None,
        Err((value, why)) => Some((value.call(), why)),
    }
}

/// Calls the value at a path. Returns the value's number, or the refusal.
fn called<N: Naming, R: Wait>(
    rt: &R,
    registry: &Registry<N, Counted>,
    caller: &mut ValueCaller<N>,
    path: &[u8],
) -> Result<u64, Refusal> {
    caller.call(rt, registry, path, |value| value.call())
}

/// Takes the value at a path. Returns its number, and how often it was called, or None if somebody is inside.
fn taken<N: Naming, R: Wait>(
    rt: &R,
    registry: &Registry<N, Counted>,
    caller: &mut ValueCaller<N>,
    path: &[u8],
) -> Result<Option<(u64, u64)>, Refusal> {
    Ok(back(registry.take(rt, caller, path)?))
}

/// Swaps the value at a path. Returns the number of the former value, and how often it was called (None if
/// somebody is inside); or the number of the value that the refused swap returned, and the refusal.
fn swapped<N: Naming, R: Wait>(
    rt: &R,
    registry: &Registry<N, Counted>,
    caller: &mut ValueCaller<N>,
    path: &[u8],
    number: u64,
) -> Result<Option<(u64, u64)>, (u64, Refusal)> {
    match registry.swap(rt, caller, path, Counted::new(number)) {
        Ok(before) => Ok(back(before)),
        Err((value, why)) => Err((value.call(), why)),
    }
}

/// Publishes, calls, swaps and takes values.
fn life<N: Naming, R: Abort + Wait>(
    rt: &R,
    registry: &Registry<N, Counted>,
    caller: &mut ValueCaller<N>,
) {
    assert!(rt; called(rt, registry, caller, b"/one") == Err(Refusal::NoEntry));
    assert!(rt; refused_of(rt, registry, caller, b"/one", 1).is_none());
    assert!(rt; refused_of(rt, registry, caller, b"/two", 2).is_none());
    assert!(rt; called(rt, registry, caller, b"/one") == Ok(1));
    assert!(rt; called(rt, registry, caller, b"/two") == Ok(2));
    assert!(rt; called(rt, registry, caller, b"/one") == Ok(1));
    assert!(rt; swapped(rt, registry, caller, b"/one", 3) == Ok(Some((1, 2))));
    assert!(rt; called(rt, registry, caller, b"/one") == Ok(3));
    assert!(rt; taken(rt, registry, caller, b"/two") == Ok(Some((2, 1))));
    assert!(rt; called(rt, registry, caller, b"/two") == Err(Refusal::NoEntry));
    assert!(rt; taken(rt, registry, caller, b"/two") == Err(Refusal::NoEntry));
    assert!(rt; taken(rt, registry, caller, b"/one") == Ok(Some((3, 1))));
}

/// Each refused call returns the value that it was passed, if any, and changes nothing.
fn refusals<N: Naming, R: Abort + Wait>(
    rt: &R,
    registry: &Registry<N, Counted>,
    caller: &mut ValueCaller<N>,
) {
    let long = [b'/'; 257];
    assert!(rt; refused_of(rt, registry, caller, b"one", 1) == Some((1, Refusal::Invalid)));
    assert!(rt; refused_of(rt, registry, caller, b"/", 1) == Some((1, Refusal::Invalid)));
    assert!(rt; refused_of(rt, registry, caller, b"/.one", 1) == Some((1, Refusal::Invalid)));
    assert!(rt; refused_of(rt, registry, caller, b"/one/two", 1) == Some((1, Refusal::Invalid)));
    assert!(rt; refused_of(rt, registry, caller, &long, 1) == Some((1, Refusal::NameTooLong)));
    assert!(rt; refused_of(rt, registry, caller, b"/one", 1).is_none());
    assert!(rt; refused_of(rt, registry, caller, b"/one", 2) == Some((2, Refusal::Exists)));
    assert!(rt; refused_of(rt, registry, caller, b"/two", 3).is_none());
    assert!(rt; refused_of(rt, registry, caller, b"/one", 4) == Some((4, Refusal::Exists)));
    assert!(rt; refused_of(rt, registry, caller, b"/three", 5).is_none());
    assert!(rt; refused_of(rt, registry, caller, b"/four", 6) == Some((6, Refusal::NoSpace)));
    assert!(rt; swapped(rt, registry, caller, b"/one", 7) == Err((7, Refusal::NoSpace)));
    assert!(rt; swapped(rt, registry, caller, b"/four", 8) == Err((8, Refusal::NoEntry)));
    assert!(rt; swapped(rt, registry, caller, b"one", 9) == Err((9, Refusal::Invalid)));
    assert!(rt; taken(rt, registry, caller, b"/") == Err(Refusal::Invalid));
    assert!(rt; taken(rt, registry, caller, b"/four") == Err(Refusal::NoEntry));
    assert!(rt; called(rt, registry, caller, b"/one") == Ok(1));
    assert!(rt; called(rt, registry, caller, b"/two") == Ok(3));
    assert!(rt; called(rt, registry, caller, b"/three") == Ok(5));
}

/// A value that was taken keeps its slot until it is passed to `into_value`.
fn room<N: Naming, R: Abort + Wait>(
    rt: &R,
    registry: &Registry<N, Counted>,
    caller: &mut ValueCaller<N>,
) {
    match registry.take(rt, caller, b"/three") {
        Err(_) => panic!(rt; "it is there"),
        Ok(value) => {
            assert!(rt;
                refused_of(rt, registry, caller, b"/four", 6) == Some((6, Refusal::NoSpace))
            );
            assert!(rt; back(value) == Some((5, 1)));
        }
    }
    assert!(rt; refused_of(rt, registry, caller, b"/four", 6).is_none());
}

/// The registry lists the published names, in byte order.
fn names<N: Naming, R: Abort + Wait>(
    rt: &R,
    registry: &Registry<N, Counted>,
    caller: &mut ValueCaller<N>,
) {
    let Ok(names) = registry.list(rt, caller, None, 10) else {
        panic!(rt; "no memory")
    };
    let all: [&[u8]; 3] = [b"four", b"one", b"two"];
    assert!(rt; names.len() == all.len());
    for (name, expected) in names.iter().zip(all) {
        assert!(rt; name.bytes() == expected);
    }
    let Ok(after) = registry.list(rt, caller, Some(b"four"), 1) else {
        panic!(rt; "no memory")
    };
    assert!(rt; after.len() == 1);
}

/// The tests of one thread, in a registry that may have three values at once.
pub(crate) fn alone<N: Naming, R: Abort + Wait>(rt: &R, new: NewRegistry<Counted>)
    requires { new.tree.master.table ≡ N.table }
{
    let registry = new.named::<N>();
    let mut caller = own_caller(rt, &registry);
    life(rt, &registry, &mut caller);
    refusals(rt, &registry, &mut caller);
    room(rt, &registry, &mut caller);
    names(rt, &registry, &mut caller);
}
