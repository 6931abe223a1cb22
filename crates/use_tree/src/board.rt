//! A script over your own board. This board has no tree: it makes nodes up, and counts them.

ghost use Rattle.std.specs.Prelude.{◌≤◌};

use kf_core::{Key, Refusal};
use kf_script::{Board, Reply, Request, run_script};
use std::alloc::Global;
use std::io;

/// A board that counts how many nodes were asked for.
#[derive(Drop)]
struct Counter {
    nodes: u32,
}

impl Board for Counter {
    ghost step = { λ before _ _ _ after. before.nodes ≤ after.nodes };

    /// Replies to a request for a directory or a file with the next key, to `commands` with the number of
    /// nodes, and to all others with `Invalid`.
    fn answer(&mut self, request: &Request<'_>, reply: &mut Reply) {
        match *request {
            Request::MakeDirectory { .. } | Request::MakeFile { .. } => {
                self.nodes = self.nodes.saturating_add(1);
                reply.set_key(Key {
                    slot: self.nodes,
                    generation: 1,
                });
            }
            Request::CountCommands => reply.set_number(self.nodes as usize),
            _ => reply.set_refusal(Refusal::Invalid),
        }
    }
}

/// Runs a script of five lines, and prints the replies.
pub(crate) fn start<R: Print>(rt: &R, alloc: Global) -> anyhow::Result<()> {
    let mut script = b"mkdir /a\nfile /a/x 644 v\ncommands\nls /\nfrob\n".as_slice();
    let mut board = Counter { nodes: 0 };
    run_script(alloc, &mut board, &mut script, &mut io::writer(rt))?;
    Ok(())
}
