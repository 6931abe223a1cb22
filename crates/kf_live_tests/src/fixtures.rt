//! Helpers of the look-up tests. Each stops the test if its call does not return what the test needs.
ghost use Rattle.std.specs.Prelude.{◌≡◌, ◌<◌, []};
ghost use Rattle.kf_looks.specs.Writing.{links_of};
ghost use Rattle.kf_live_tests.specs.Chains.{NoneFrom};

use kf_core::{Key, Node};
use kf_looks::{Found, FoundAt, Looker, LookupTable, ShortName, Writer, links_tell};
use std::alloc::Global;
use std::process::Abort;

pub(crate) const FILE: Node = Node::File {
    mode: 0o444,
    tag: 7,
};

const TOP: Key = Key {
    slot: 0,
    generation: 1,
};

pub(crate) fn key(slot: u32) -> Key
    ensures { result.slot ≡ slot }
{
    Key {
        slot,
        generation: 1,
    }
}

/// Words for this many slots, without any name.
pub(crate) fn made<R: Abort>(rt: &R, alloc: Global, slots: u32) -> (LookupTable, Writer)
    ensures table { result.1.seat.table_id ≡ result.0.table.shared.table_id }
    ensures empty { links_of result.1.seat ≡ [] }
{
    assert!(rt; slots <= 1048576);
    match LookupTable::new(alloc, slots) {
        Ok((looks, writer)) => (looks, writer),
        Err(_) => panic!(rt; "no memory"),
    }
}

pub(crate) fn named<R: Abort>(rt: &R, bytes: &[u8]) -> ShortName {
    match ShortName::of(bytes) {
        Some(name) => name,
        None => panic!(rt; "no short name"),
    }
}

/// Makes a chain: each slot below `count` is the directory of the next slot, which has this name there and is
/// this node.
pub(crate) fn chain<R: Abort>(
    rt: &R,
    looks: &LookupTable,
    first: Writer,
    count: u32,
    name: &ShortName,
    node: Node,
) -> Writer
    requires table { first.seat.table_id ≡ looks.now.table.shared.table_id }
    requires empty { links_of first.seat ≡ [] }
    ensures table { result.seat.table_id ≡ looks.now.table.shared.table_id }
    ensures none { NoneFrom (links_of result.seat) count }
{
    assert!(rt; count < 1048576);
    links_tell();
    let mut writer = first;
    for slot in 0..count {
        let section = looks.start(writer);
        let child = Found {
            key: key(slot + 1),
            node,
        };
        let section = looks.give(section, key(slot), name, child);
        writer = looks.publish(section);
    }
    writer
}

/// What a look-up of this path finds.
pub(crate) fn found<R: Abort>(
    rt: &R,
    looks: &LookupTable,
    looker: &mut Looker,
    path: &[u8],
) -> FoundAt
    requires table { looker.old.seat.table_id ≡ looks.now.table.shared.table_id }
    ensures table { looker.new.seat.table_id ≡ looker.old.seat.table_id }
{
    match looks.look(looker, TOP, path) {
        Some(sight) => sight,
        None => panic!(rt; "no answer"),
    }
}
