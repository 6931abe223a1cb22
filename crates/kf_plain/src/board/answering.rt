//! The board's reply to each request.

ghost use Rattle.std.specs.Prelude.{◌<◌, Bool};
ghost use Rattle.kf_plain.specs.PlainStep.{PlainStep};
ghost use Rattle.kf_script.specs.Requests.{make_directory as make_directory_words, make_file as make_file_words, make_link as make_link_words, activate as activate_words, list_names as list_names_words, stat as stat_words, read_link as read_link_words, move as move_words, remove as remove_words, open_file as open_file_words, notify as notify_words, close_file as close_file_words, read_file as read_file_words, write_file as write_file_words, poll_file as poll_file_words, compact as compact_words, hide as hide_words, show as show_words};

use super::PlainBoard;
use kf_core::Refusal;
use kf_pages::Want;
use kf_replies::tell_stat;
use kf_script::{Board, Reply, Request};

// Each reply has its own function, which is not inlined. So the match over the requests is short, and is
// inlined into the code that parses a line.
impl PlainBoard {
    /// `mkdir`: the new key.
    #[inline(never)]
    fn answer_make_directory(&mut self, path: &[u8], is_live: bool, reply: &mut Reply)
        ensures { (starved : Bool)
            × PlainStep self.old (make_directory_words path.now is_live) starved reply.new self.new }
    {
        match self.make_directory(path, is_live) {
            Ok(key) => reply.set_key(key),
            Err(refusal) => reply.set_refusal(refusal),
        }
    }

    /// `file`: the new key.
    #[inline(never)]
    fn answer_make_file(&mut self, path: &[u8], mode: u16, text: &[u8], reply: &mut Reply)
        ensures { (starved : Bool)
            × PlainStep self.old (make_file_words path.now mode text.now) starved reply.new self.new }
    {
        match self.make_file(path, mode, text) {
            Ok(key) => reply.set_key(key),
            Err(refusal) => reply.set_refusal(refusal),
        }
    }

    /// `link`: the new key.
    #[inline(never)]
    fn answer_make_link(&mut self, path: &[u8], target: &[u8], reply: &mut Reply)
        ensures { (starved : Bool)
            × PlainStep self.old (make_link_words path.now target.now) starved reply.new self.new }
    {
        match self.make_link(path, target) {
            Ok(key) => reply.set_key(key),
            Err(refusal) => reply.set_refusal(refusal),
        }
    }

    /// `activate`: done.
    #[inline(never)]
    fn answer_activate(&mut self, path: &[u8], reply: &mut Reply)
        ensures { (starved : Bool) × PlainStep self.old (activate_words path.now) starved reply.new self.new }
    {
        match self.activate(path) {
            Ok(()) => reply.set_done(),
            Err(refusal) => reply.set_refusal(refusal),
        }
    }

    /// `ls`: the names.
    #[inline(never)]
    fn answer_list(&mut self, path: &[u8], reply: &mut Reply)
        ensures { (starved : Bool)
            × PlainStep self.old (list_names_words path.now) starved reply.new self.new }
    {
        if let Err(refusal) = self.list(path, reply) {
            reply.set_refusal(refusal);
        }
    }

    /// `stat`: what is reported of the node.
    #[inline(never)]
    fn answer_stat(&mut self, path: &[u8], reply: &mut Reply)
        ensures { (starved : Bool) × PlainStep self.old (stat_words path.now) starved reply.new self.new }
    {
        match self.stat(path) {
            Ok(stat) => tell_stat(reply, &stat),
            Err(refusal) => reply.set_refusal(refusal),
        }
    }

    /// `readlink`: the text.
    #[inline(never)]
    fn answer_read_link(&mut self, path: &[u8], reply: &mut Reply)
        ensures { (starved : Bool)
            × PlainStep self.old (read_link_words path.now) starved reply.new self.new }
    {
        if let Err(refusal) = self.read_link(path, reply) {
            reply.set_refusal(refusal);
        }
    }

    /// `mv`: done.
    #[inline(never)]
    fn answer_move(&mut self, path: &[u8], dir: &[u8], name: &[u8], reply: &mut Reply)
        ensures { (starved : Bool)
            × PlainStep self.old (move_words path.now dir.now name.now) starved reply.new self.new }
    {
        match self.move_node(path, dir, name) {
            Ok(()) => reply.set_done(),
            Err(refusal) => reply.set_refusal(refusal),
        }
    }

    /// `rm`: done.
    #[inline(never)]
    fn answer_remove(&mut self, path: &[u8], reply: &mut Reply)
        ensures { (starved : Bool) × PlainStep self.old (remove_words path.now) starved reply.new self.new }
    {
        match self.remove(path) {
            Ok(()) => reply.set_done(),
            Err(refusal) => reply.set_refusal(refusal),
        }
    }

    /// `open`: done.
    #[inline(never)]
    fn answer_open(&mut self, file: usize, path: &[u8], want: Want, reply: &mut Reply)
        requires { file < 26 }
        ensures { (starved : Bool)
            × PlainStep self.old
            (open_file_words file path.now want.read want.write) starved reply.new self.new }
    {
        match self.open(file, path, want) {
            Ok(()) => reply.set_done(),
            Err(refusal) => reply.set_refusal(refusal),
        }
    }

    /// `read`: the bytes.
    #[inline(never)]
    fn answer_read(&mut self, file: usize, offset: u64, most: usize, reply: &mut Reply)
        requires { file < 26 }
        ensures { (starved : Bool)
            × PlainStep self.old (read_file_words file offset most) starved reply.new self.new }
    {
        if let Err(refusal) = self.read(file, offset, most, reply) {
            reply.set_refusal(refusal);
        }
    }

    /// `write`: the number of bytes taken.
    #[inline(never)]
    fn answer_write(&mut self, file: usize, text: &[u8], reply: &mut Reply)
        requires { file < 26 }
        ensures { (starved : Bool)
            × PlainStep self.old (write_file_words file text.now) starved reply.new self.new }
    {
        if let Err(refusal) = self.write(file, text, reply) {
            reply.set_refusal(refusal);
        }
    }

    /// `poll`: changed or the same.
    #[inline(never)]
    fn answer_poll(&mut self, file: usize, reply: &mut Reply)
        requires { file < 26 }
        ensures { (starved : Bool) × PlainStep self.old (poll_file_words file) starved reply.new self.new }
    {
        match self.poll(file) {
            Ok(changed) => reply.set_poll(changed),
            Err(refusal) => reply.set_refusal(refusal),
        }
    }

    /// `notify`: done.
    #[inline(never)]
    fn answer_notify(&mut self, path: &[u8], reply: &mut Reply)
        ensures { (starved : Bool) × PlainStep self.old (notify_words path.now) starved reply.new self.new }
    {
        match self.notify(path) {
            Ok(()) => reply.set_done(),
            Err(refusal) => reply.set_refusal(refusal),
        }
    }

    /// `hide`: done.
    #[inline(never)]
    fn answer_hide(&mut self, path: &[u8], reply: &mut Reply)
        ensures { (starved : Bool) × PlainStep self.old (hide_words path.now) starved reply.new self.new }
    {
        match self.hide(path) {
            Ok(()) => reply.set_done(),
            Err(refusal) => reply.set_refusal(refusal),
        }
    }

    /// `show`: done.
    #[inline(never)]
    fn answer_show(&mut self, path: &[u8], reply: &mut Reply)
        ensures { (starved : Bool) × PlainStep self.old (show_words path.now) starved reply.new self.new }
    {
        match self.show(path) {
            Ok(()) => reply.set_done(),
            Err(refusal) => reply.set_refusal(refusal),
        }
    }

    /// `compact`: done.
    #[inline(never)]
    fn answer_compact(&mut self, reply: &mut Reply)
        ensures { (starved : Bool) × PlainStep self.old compact_words starved reply.new self.new }
    {
        match self.compact() {
            Ok(()) => reply.set_done(),
            Err(refusal) => reply.set_refusal(refusal),
        }
    }

    /// `close`: done.
    #[inline(never)]
    fn answer_close(&mut self, file: usize, reply: &mut Reply)
        requires { file < 26 }
        ensures { (starved : Bool) × PlainStep self.old (close_file_words file) starved reply.new self.new }
    {
        match self.close(file) {
            Ok(()) => reply.set_done(),
            Err(refusal) => reply.set_refusal(refusal),
        }
    }
}

impl Board for PlainBoard {
    ghost step = { PlainStep };

    #[inline(always)]
    fn answer(&mut self, request: &Request<'_>, reply: &mut Reply) {
        match *request {
            Request::MakeDirectory { path, is_live } => self.answer_make_directory(
                path, is_live, reply,
            ),
            Request::MakeFile { path, mode, text } => self.answer_make_file(
                path, mode, text, reply,
            ),
            Request::MakeLink { path, target } => self.answer_make_link(path, target, reply),
            Request::Activate { path } => self.answer_activate(path, reply),
            Request::ListNames { path } => self.answer_list(path, reply),
            Request::Stat { path } => self.answer_stat(path, reply),
            Request::ReadLink { path } => self.answer_read_link(path, reply),
            Request::Move { path, dir, name } => self.answer_move(path, dir, name, reply),
            Request::Remove { path } => self.answer_remove(path, reply),
            Request::OpenFile {
                file,
                path,
                reads,
                writes,
            } => {
                let want = Want {
                    read: reads,
                    write: writes,
                };
                self.answer_open(file, path, want, reply);
            }
            Request::ReadFile { file, offset, most } => self.answer_read(file, offset, most, reply),
            Request::WriteFile { file, text } => self.answer_write(file, text, reply),
            Request::PollFile { file } => self.answer_poll(file, reply),
            Request::Notify { path } => self.answer_notify(path, reply),
            Request::CloseFile { file } => self.answer_close(file, reply),
            Request::Hide { path } => self.answer_hide(path, reply),
            Request::Show { path } => self.answer_show(path, reply),
            Request::CountCommands => reply.set_number(self.count_commands()),
            Request::Compact => self.answer_compact(reply),
            Request::Plug { .. } | Request::Unplug { .. } => reply.set_refusal(Refusal::NoDevice),
            Request::Wait => reply.set_done(),
        }
    }
}
