//! The board's reply to each request.

ghost use Rattle.std.specs.Prelude.{◌<◌};
ghost use Rattle.kf_workers.specs.Replies.{AreBytes, AreNames, IsCount, IsKey, IsLinkReply};

use super::WorkerBoard;
use crate::script_ops::ScriptOps;
use crate::tell::{tell_changed, tell_done, tell_key, tell_seen};
use kf_core::{Key, Refusal};
use kf_files::{FileError, Want};
use kf_script::{Board, Reply, Request};
use kf_shared::Naming;
use std::sync::Wait;

/// Replies to `mkdir`, `link` or `plug`: the key of the new node, or why there is none.
fn answer_made(made: Result<Key, Refusal>, reply: &mut Reply)
    ensures { IsKey reply.new }
{
    tell_key(reply, made.map_err(FileError::Refused));
}

/// What a file is opened for.
fn wanted(read: bool, write: bool) -> Want {
    Want { read, write }
}

impl<W: ScriptOps, N: Naming, R: Wait> WorkerBoard<'_, W, N, R> {
    /// Replies to `ls`: the names, or why there are none.
    fn answer_list(&self, path: &[u8], reply: &mut Reply)
        ensures { AreNames reply.new }
    {
        if let Err(refusal) = self.list(path, reply) {
            reply.set_refusal(refusal);
        }
    }

    /// Replies to `readlink`: the text, or why there is none.
    fn answer_read_link(&self, path: &[u8], reply: &mut Reply)
        ensures { IsLinkReply reply.new }
    {
        if let Err(refusal) = self.read_link(path, reply) {
            reply.set_refusal(refusal);
        }
    }

    /// Replies to `read`: the bytes, or why there are none.
    fn answer_read(&mut self, file: usize, offset: u64, most: usize, reply: &mut Reply)
        requires { file < 26 }
        ensures { AreBytes most reply.new }
    {
        if let Err(refusal) = self.read(file, offset, most, reply) {
            reply.set_refusal(refusal);
        }
    }

    /// Replies to `write`: the number of bytes taken, or why there is none.
    fn answer_write(&mut self, file: usize, text: &[u8], reply: &mut Reply)
        requires { file < 26 }
        ensures { IsCount reply.new }
    {
        if let Err(refusal) = self.write(file, text, reply) {
            reply.set_refusal(refusal);
        }
    }
}

impl<W: ScriptOps, N: Naming, R: Wait> Board for WorkerBoard<'_, W, N, R> {
    ghost use Rattle.kf_workers.specs.Replies.{Suits};

    ghost step = { λ before request starved reply now. Suits request reply };

    fn answer(&mut self, request: &Request<'_>, reply: &mut Reply) {
        match *request {
            Request::MakeDirectory { path, is_live } => {
                answer_made(self.make_directory(path, is_live), reply);
            }
            Request::MakeFile { path, mode, text } => {
                tell_key(reply, self.make_file(path, mode, text));
            }
            Request::MakeLink { path, target } => answer_made(self.make_link(path, target), reply),
            Request::Activate { path } => tell_done(reply, self.activate(path)),
            Request::ListNames { path } => self.answer_list(path, reply),
            Request::Stat { path } => tell_seen(reply, self.stat(path)),
            Request::ReadLink { path } => self.answer_read_link(path, reply),
            Request::Move { path, dir, name } => tell_done(reply, self.move_node(path, dir, name)),
            Request::Remove { path } => tell_done(reply, self.remove(path)),
            Request::OpenFile {
                file,
                path,
                reads,
                writes,
            } => tell_done(reply, self.open(file, path, wanted(reads, writes))),
            Request::ReadFile { file, offset, most } => self.answer_read(file, offset, most, reply),
            Request::WriteFile { file, text } => self.answer_write(file, text, reply),
            Request::PollFile { file } => tell_changed(reply, self.poll(file)),
            Request::Notify { path } => tell_done(reply, self.notify(path)),
            Request::CloseFile { file } => tell_done(reply, self.close(file)),
            Request::Hide { path } => tell_done(reply, self.hide(path)),
            Request::Show { path } => tell_done(reply, self.show(path)),
            Request::CountCommands => reply.set_number(self.count_commands()),
            Request::Compact => tell_done(reply, self.compact()),
            Request::Plug { name, text } => answer_made(self.plug(name, text), reply),
            Request::Unplug { name } => tell_done(reply, self.unplug(name)),
            Request::Wait => reply.set_done(),
        }
    }
}
