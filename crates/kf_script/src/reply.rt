//! The text of a reply.

ghost use Rattle.std.specs.Prelude.{◌≡◌, ◌≤◌, ◌<◌, ◌+◌, ◌++◌, ◌∷◌, ℕ, List, [], length, decimal, vec_len, vec_capacity, IfOk, IfErr, IsOk, OnOk};
ghost use Rattle.kf_core.specs.Refusals.{name_of};
ghost use Rattle.std.specs.Io.KnownBytes.{append_known};
ghost use Rattle.kf_script.specs.Progress.{WrittenOrCut, Grows, kept_with};
ghost use Rattle.kf_script.specs.ReplyText.{done_text, bad_line_text, refusal_text, fault_text, key_text, poll_text, stat_text, octal as octal_text, node_text, state_text};

use super::behind::{push_all, push_each};
use super::fault::RunFault;
use super::output::Output;
use itoa::Buffer;
use kf_core::{Key, Node, Refusal};
use std::alloc::{AllocError, Global};
use std::io::Write;
use std::marker::Model;

/// The length of the longest reply that needs no further memory, in bytes and without its newline.
pub const SHORT_REPLY: usize = 4096;

/// The state of a node, as `stat` prints it.
#[derive(Clone, Copy, Debug)]
pub enum NodeState {
    /// It is doomed.
    Removing,
    /// It is not activated.
    Off,
    /// It is a hidden file.
    Hidden,
    /// It is live.
    Live,
}

/// The text of one reply. The same memory is used again for each line.
///
/// It always has room for a reply of [`SHORT_REPLY`] bytes and its newline.
#[derive(Drop)]
pub struct Reply {
    text: Vec<u8>,
}

impl Model for Reply {
    ghost Value = { List ℕ };

    ghost view = { λ r. r.text.items };

    ghost invariant = { λ r. (4097 ≤ vec_capacity r.text) × (vec_len r.text < vec_capacity r.text) };
}

impl Reply {
    /// A reply without text.
    pub fn new(alloc: Global) -> Result<Reply, AllocError>
        ensures { IfOk result (λ reply. reply ≡ []) }
    {
        let text = Vec::with_capacity(alloc, SHORT_REPLY + 1)?;
        Ok(Reply { text })
    }

    /// The text.
    pub fn text(&self) -> &[u8]
        ensures { result.now ≡ self.now }
    {
        self.text.as_slice()
    }

    /// Sets the text to `ok`.
    pub fn set_done(&mut self)
        ensures { self.new ≡ done_text }
    {
        self.clear();
        self.push_known(b"ok");
    }

    /// Sets the text to `err Line 22`: the line is too long, or makes no request.
    pub fn set_bad_line(&mut self)
        ensures { self.new ≡ bad_line_text }
    {
        self.clear();
        self.push_known(b"err Line 22");
    }

    /// Sets the text to `err NAME NUMBER`, with the name and the number of a refusal.
    pub fn set_refusal(&mut self, refusal: Refusal)
        ensures { self.new ≡ refusal_text refusal }
    {
        self.clear();
        self.push_known(b"err ");
        self.push(name_bytes(refusal));
        self.push_known(b" ");
        self.push_number(usize::from(refusal.number()));
    }

    /// Sets the text to `err Callback NUMBER`, with the number of a callback's fault.
    pub fn set_fault(&mut self, number: u16)
        ensures { self.new ≡ fault_text number }
    {
        self.clear();
        self.push_known(b"err Callback ");
        self.push_number(usize::from(number));
    }

    /// Sets the text to `ok SLOT.GENERATION`, with the key of a new node.
    pub fn set_key(&mut self, key: Key)
        ensures { self.new ≡ key_text key }
    {
        self.clear();
        self.push_known(b"ok ");
        self.push_number(key.slot as usize);
        self.push_known(b".");
        self.push_number(key.generation as usize);
    }

    /// Sets the text to what `stat` reports of a node: its kind, what its kind has, and its state. A file has
    /// its mode. A directory has the number of directories in it and its number of links. A link has nothing.
    pub fn set_stat(&mut self, node: Node, subdirs: u32, links: u32, state: NodeState)
        ensures { self.new ≡ stat_text node subdirs links state }
    {
        self.clear();
        self.push_node(node, subdirs, links);
        self.push(state.bytes());
    }

    /// Sets the text to a number in decimal.
    pub fn set_number(&mut self, number: usize)
        ensures { self.new ≡ decimal number }
    {
        self.clear();
        self.push_number(number);
    }

    /// Sets the text to `changed` or `same`.
    pub fn set_poll(&mut self, changed: bool)
        ensures { self.new ≡ poll_text changed }
    {
        self.clear();
        if changed {
            self.push_known(b"changed");
        } else {
            self.push_known(b"same");
        }
    }

    /// Sets the text to these bytes, at most [`SHORT_REPLY`] of them.
    ///
    /// Condition: there are at most 4,096 bytes.
    pub fn set_bytes(&mut self, bytes: &[u8])
        requires { length bytes.now ≤ 4096 }
        ensures { self.new ≡ bytes.now }
    {
        self.clear();
        self.push(bytes);
    }

    /// Sets the text to these bytes, any number of them. The only refusal is `NoMemory`, and it does not
    /// occur if there are at most [`SHORT_REPLY`] bytes. After a refusal the text is unknown.
    pub fn set_text(&mut self, bytes: &[u8]) -> Result<(), Refusal>
        ensures text { OnOk result (self.new ≡ bytes.now) }
        ensures short { length bytes.now ≤ 4096 → IsOk result }
        ensures refused { IfErr result (λ refusal. refusal ≡ Refusal.NoMemory) }
    {
        self.clear();
        self.extend(bytes)
    }

    /// Writes the text and a newline to the output, and clears the text.
    #[inline(always)]
    pub fn write_line<W: Write>(&mut self, output: &mut Output<'_, W>) -> Result<(), RunFault>
        ensures written { WrittenOrCut
            (append_known (W.contents output.old.writer.now) output.old.kept.now.items)
            (append_known (W.contents output.new.writer.now) output.new.kept.now.items) result
            (self.old ++ 10 ∷ []) }
        ensures whole { OnOk result
            (output.new.kept.now.items ≡ kept_with output.old.kept.now.items (self.old ++ 10 ∷ [])) }
        ensures grew { Grows (W.contents output.old.writer.now) (W.contents output.new.writer.now) }
        ensures lent { output.new.writer.ghost_name ≡ output.old.writer.ghost_name }
        ensures fault { IfErr result (λ fault. fault ≡ RunFault.Write) }
    {
        self.text.push_reserved(b'\n');
        let result = output.write(self.text.as_slice());
        self.text.clear();
        result
    }

    /// Clears the text.
    #[inline(always)]
    pub fn clear(&mut self)
        ensures { self.new ≡ [] }
    {
        self.text.clear();
    }

    /// Appends a text that is a constant at each call, and for which there is room.
    #[inline(always)]
    fn push_known(&mut self, text: &[u8])
        requires { length self.old + length text.now ≤ 4096 }
        ensures text { self.new ≡ self.old ++ text.now }
        ensures len { length self.new ≡ length self.old + length text.now }
    {
        push_each(&mut self.text, text);
    }

    /// Appends bytes for which there is room.
    fn push(&mut self, bytes: &[u8])
        requires { length self.old + length bytes.now ≤ 4096 }
        ensures text { self.new ≡ self.old ++ bytes.now }
        ensures len { length self.new ≡ length self.old + length bytes.now }
    {
        push_all(&mut self.text, bytes);
    }

    /// Appends any number of bytes. The only refusal is `NoMemory`, and it does not occur if the text then
    /// has at most [`SHORT_REPLY`] bytes. After a refusal the text is unknown.
    pub fn extend(&mut self, bytes: &[u8]) -> Result<(), Refusal>
        ensures text { OnOk result (self.new ≡ self.old ++ bytes.now) }
        ensures short { length self.old + length bytes.now ≤ 4096 → IsOk result }
        ensures refused { IfErr result (λ refusal. refusal ≡ Refusal.NoMemory) }
    {
        let room = self.text.capacity() - self.text.len();
        if room <= bytes.len() && self.text.reserve(bytes.len() + 1).is_err() {
            return Err(Refusal::NoMemory);
        }
        let _ = self.text.extend_from_slice(bytes);
        Ok(())
    }

    /// Appends a number in decimal.
    fn push_number(&mut self, number: usize)
        requires { length self.old ≤ 4000 }
        ensures text { self.new ≡ self.old ++ decimal number }
        ensures len { length self.new ≤ length self.old + 20 }
    {
        let mut buffer = Buffer::new();
        self.push(buffer.format(number).as_bytes());
    }

    /// Appends what `stat` reports of a node before the node's state.
    fn push_node(&mut self, node: Node, subdirs: u32, links: u32)
        requires { self.old ≡ [] }
        ensures text { self.new ≡ node_text node subdirs links }
        ensures len { length self.new ≤ 100 }
    {
        match node {
            Node::Dir => {
                self.push_known(b"dir subdirs=");
                self.push_number(subdirs as usize);
                self.push_known(b" nlink=");
                self.push_number(links as usize);
                self.push_known(b" ");
            }
            Node::File { mode, .. } => {
                self.push_known(b"file mode=");
                self.push(octal(mode).as_slice());
                self.push_known(b" ");
            }
            Node::Link { .. } => self.push_known(b"link "),
        }
    }
}

fn name_bytes(refusal: Refusal) -> &'static [u8]
    ensures name { result.now ≡ name_of refusal }
    ensures short { length result.now ≤ 12 }
{
    refusal.name().as_bytes()
}

impl NodeState {
    fn bytes(self) -> &'static [u8]
        ensures text { result.now ≡ state_text self }
        ensures short { length result.now ≤ 8 }
    {
        match self {
            NodeState::Removing => b"removing",
            NodeState::Off => b"off",
            NodeState::Hidden => b"hidden",
            NodeState::Live => b"live",
        }
    }
}

/// The last three octal digits of a mode.
fn octal(mode: u16) -> [u8; 3]
    ensures { result ≡ octal_text mode }
{
    [
        b'0' + (mode / 64 % 8) as u8,
        b'0' + (mode / 8 % 8) as u8,
        b'0' + (mode % 8) as u8,
    ]
}
