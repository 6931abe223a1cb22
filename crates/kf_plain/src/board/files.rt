//! The requests on open files, and notify.

ghost use Rattle.std.specs.Prelude.{◌≡◌, ◌<◌, ℕ, None, Some, Ok, Err, Result, IfOk, IfErr, OnOk, IsSome, slice_index};
ghost use Rattle.kf_core.specs.declared.key.Key.{Key};
ghost use Rattle.kf_core.specs.declared.refusal.Refusal.TheVariants.{Invalid};
ghost use Rattle.kf_pages.specs.declared.ops.FileError.{FileError};
ghost use Rattle.kf_pages.specs.Files.{FileState, Reads, Writes, Polls, Stored, text_told};
ghost use Rattle.kf_plain.specs.PlainInside.{IsShort};
ghost use Rattle.kf_plain.specs.Plain.{OpenPlainFile, with_file};
ghost use Rattle.kf_plain.specs.PlainFiles.{open_held, opened_key, new_open, known_file, notified_key, with_event, VisitsNode, ShowsText, StoresOnBoard};
ghost use Rattle.kf_replies.specs.ReplyParts.{bytes_text, count_text};
ghost use Rattle.kf_plain.specs.Settled.{IsRefusedFrom};

use super::PlainBoard;
use crate::nodes::BoardFile;
use kf_core::{Node, Refusal};
use kf_pages::{FileError, Want};
use kf_replies::{tell_count, tell_error};
use kf_script::Reply;

/// Writes the prepared text of an open file, from an offset on, or why there is none.
fn tell_text(
    reply: &mut Reply,
    told: Result<(), FileError>,
    opened: &BoardFile,
    offset: u64,
    most: usize,
)
    requires text { OnOk told (IsSome opened.now.file.state.text) }
    requires short { IsShort opened.now.file.state.text }
    ensures told { reply.new ≡ bytes_text (text_told opened.now.file.state offset most told) }
{
    match told {
        Ok(()) => reply.set_bytes(opened.file.text_from(offset, most)),
        Err(error) => tell_error(reply, error),
    }
}

impl PlainBoard {
    /// Opens the file at a path under a letter.
    pub(super) fn open(&mut self, file: usize, path: &[u8], want: Want) -> Result<(), Refusal>
        requires letter { file < 26 }
        ensures opened { IfOk result
            (λ _. (key : Key) × (opened_key self.old file path.now want ≡ Ok key)
            × (self.new ≡ with_file self.old file (Some (new_open key want)))) }
        ensures refused { IfErr result (λ refusal.
            IsRefusedFrom (open_held self.old file path.now) (opened_key self.old file path.now want)
            self.old refusal self.new) }
    {
        if self.files[file].is_some() {
            return Err(Refusal::Busy);
        }
        match self.nodes.open_at(path, want) {
            Ok(opened) => {
                self.files[file] = Some(opened);
                Ok(())
            }
            Err(refusal) => Err(refusal),
        }
    }

    /// Notifies the file at a path: each open file on its slot now counts as changed.
    pub(super) fn notify(&mut self, path: &[u8]) -> Result<(), Refusal>
        ensures notified { IfOk result
            (λ _. (key : Key) × (notified_key self.old path.now ≡ Ok key)
            × (self.new ≡ with_event self.old key.slot)) }
        ensures refused { IfErr result
            (λ refusal. (notified_key self.old path.now ≡ Err refusal) × (self.new ≡ self.old)) }
    {
        let state = self.nodes.state();
        let key = state.walk(path)?;
        match state.stat(key)?.node {
            Node::Dir => return Err(Refusal::IsDir),
            Node::Link { .. } => return Err(Refusal::Invalid),
            Node::File { .. } => {}
        }
        self.events.raise(key.slot)
    }

    /// Closes the file of a letter.
    pub(super) fn close(&mut self, file: usize) -> Result<(), Refusal>
        requires letter { file < 26 }
        ensures closed { IfOk result
            (λ _. (opened : OpenPlainFile) × (known_file self.old file ≡ Ok opened)
            × (self.new ≡ with_file self.old file None)) }
        ensures refused { IfErr result
            (λ refusal. (known_file self.old file ≡ Err refusal) × (self.new ≡ self.old)) }
    {
        match self.files[file].take() {
            Some(opened) => {
                self.nodes.close(opened);
                Ok(())
            }
            None => Err(Refusal::Invalid),
        }
    }

    /// Reads the file of a letter from an offset on. Puts the bytes, at most 4,095, into the reply, or the
    /// reason why there are none.
    pub(super) fn read(
        &mut self,
        file: usize,
        offset: u64,
        most: usize,
        reply: &mut Reply,
    ) -> Result<(), Refusal>
        requires letter { file < 26 }
        ensures read { IfOk result (λ _. (opened : OpenPlainFile) × (known_file self.old file ≡ Ok opened)
            × ((kept : FileState)
            × Reads (VisitsNode self.old opened.key (Unit {0}) (ShowsText self.old opened.key.slot))
            (λ answer. reply.new ≡ bytes_text answer) opened.kept offset most kept
            × (self.new ≡ with_file self.old file (Some (record { key = opened.key; kept = kept }))))) }
        ensures refused { IfErr result
            (λ refusal. (known_file self.old file ≡ Err refusal) × (self.new ≡ self.old)) }
    {
        let Some(opened) = &mut self.files[file] else {
            return Err(Refusal::Invalid);
        };
        let told = self
            .nodes
            .read(opened, &mut self.texts, offset, &self.events);
        tell_text(reply, told, opened, offset, most);
        Ok(())
    }

    /// Writes a text to the file of a letter. Puts the number that the file's store returned into the reply,
    /// or the reason why there is none.
    pub(super) fn write(
        &mut self,
        file: usize,
        text: &[u8],
        reply: &mut Reply,
    ) -> Result<(), Refusal>
        requires letter { file < 26 }
        ensures written { IfOk result (λ _. (opened : OpenPlainFile) × (known_file self.old file ≡ Ok opened)
            × ((answer : Result ℕ FileError) × (reply.new ≡ count_text answer)
            × Writes (VisitsNode self.old opened.key (self.new ≡ self.old)
            (λ stored. Stored StoresOnBoard self.old opened.key.slot text.now self.new stored)) opened.kept
            answer)) }
        ensures refused { IfErr result
            (λ refusal. (known_file self.old file ≡ Err refusal) × (self.new ≡ self.old)) }
    {
        let Some(opened) = &mut self.files[file] else {
            return Err(Refusal::Invalid);
        };
        let told = self.nodes.write(opened, &mut self.texts, text);
        tell_count(reply, told);
        Ok(())
    }

    /// Whether the file of a letter has changed since its last show.
    pub(super) fn poll(&mut self, file: usize) -> Result<bool, Refusal>
        requires letter { file < 26 }
        ensures polled { IfOk result
            (λ changed. (opened : OpenPlainFile) × (known_file self.old file ≡ Ok opened)
            × Polls (VisitsNode self.old opened.key (Unit {0})
            (λ number. number ≡ slice_index self.old.events opened.key.slot)) opened.kept changed
            × (self.new ≡ self.old)) }
        ensures refused { IfErr result
            (λ refusal. (known_file self.old file ≡ Err refusal) × (self.new ≡ self.old)) }
    {
        let Some(opened) = &mut self.files[file] else {
            return Err(Refusal::Invalid);
        };
        Ok(self.nodes.poll(opened, &self.events))
    }
}
