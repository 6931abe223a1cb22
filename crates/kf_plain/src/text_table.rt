//! The texts of a board's files, by slot, and the callbacks that show and store them.

ghost use Rattle.std.specs.Prelude.{◌≡◌, ◌<◌, ◌≤◌, ◌+◌, ◌++◌, List, ℕ, [], length, replicate, slice_get, slice_index_or, slice_set, take, None, IfOk, IfErr, OnOk, OnErr};
ghost use Rattle.std.specs.Option.{option_and_then, option_map_or};
ghost use Rattle.kf_core.specs.declared.refusal.Refusal.TheVariants.{NoMemory};
ghost use Rattle.kf_plain.specs.TextTable.{ShowsOf, StoresIn};

use kf_core::{ActiveCall, Refusal, SlotMap};
use kf_pages::{Fault, Ops, Page};
use std::alloc::{AllocError, Global};
use std::marker::Model;

/// For each slot, the text of its last file. A file's tag is the number of its slot.
#[derive(Drop)]
pub struct TextTable {
    alloc: Global,
    texts: SlotMap<Vec<u8>>,
}

impl Model for TextTable {
    ghost use Rattle.std.specs.Prelude.{ℕ, List, [], map};
    ghost use Rattle.std.specs.Option.{option_map_or};

    ghost Value = { List (List ℕ) };

    ghost view = { λ t. map (λ text. option_map_or (λ bytes. bytes.items) text []) t.texts };
}

/// Appends bytes for which there is room.
fn append(page: &mut Page, bytes: &[u8])
    requires room { length page.old.items + length bytes.now ≤ 4096 }
    ensures items { page.new.items ≡ page.old.items ++ bytes.now }
{
    let _ = page.try_extend_from_slice(bytes);
}

/// Fills an empty page with the first 4,096 bytes of a text.
fn fill(page: &mut Page, text: &[u8])
    requires empty { page.old.items ≡ [] }
    ensures filled { page.new.items ≡ take 4096 text.now }
{
    if text.len() <= 4096 {
        append(page, text);
    } else {
        append(page, &text[..4096]);
    }
}

/// Replaces a text with bytes, in the text's own memory if they fit, otherwise in new memory. After a refusal
/// the text is as it was.
fn replace(alloc: Global, text: &mut Vec<u8>, bytes: &[u8]) -> Result<(), AllocError>
    ensures replaced { OnOk result (text.new.items ≡ bytes.now) }
    ensures unchanged { OnErr result (text.new.items ≡ text.old.items) }
{
    if bytes.len() <= text.capacity() {
        text.clear();
        let _ = text.extend_from_slice(bytes);
        return Ok(());
    }
    *text = bytes.to_vec(alloc)?;
    Ok(())
}

/// Takes the text of a slot out of its place. It is empty if there is none.
fn text_in(texts: &mut SlotMap<Vec<u8>>, alloc: Global, slot: usize) -> Vec<u8>
    ensures text { result.items ≡ option_map_or (λ bytes. bytes.items)
        (option_and_then (λ text. text) (slice_get texts.old slot)) [] }
    ensures taken { texts.new ≡ slice_set texts.old slot None }
{
    match texts.take(slot) {
        Some(text) => text,
        None => Vec::new(alloc),
    }
}

impl TextTable {
    /// An empty text for each of this many slots.
    pub fn new(alloc: Global, slots: u32) -> Result<TextTable, Refusal>
        ensures empty { IfOk result (λ table. table ≡ replicate slots []) }
        ensures refused { IfErr result (λ refusal. refusal ≡ NoMemory) }
    {
        let texts = SlotMap::new(alloc, slots as usize)?;
        Ok(TextTable { alloc, texts })
    }

    /// A copy of the bytes, made before anything is changed. `NoMemory` if there is no memory for it.
    pub fn copy(&self, bytes: &[u8]) -> Result<Vec<u8>, Refusal>
        ensures same { IfOk result (λ text. text.items ≡ bytes.now) }
        ensures refused { IfErr result (λ refusal. refusal ≡ NoMemory) }
    {
        bytes.to_vec(self.alloc).map_err(|_| Refusal::NoMemory)
    }

    /// The text of a slot. It is empty if there is none, or if there is no such slot.
    fn at(&self, slot: usize) -> &[u8]
        ensures text { result.now ≡ slice_index_or self.now slot [] }
    {
        match self.texts.get(slot) {
            Some(text) => text.as_slice(),
            None => &[],
        }
    }

    /// Replaces the slot's text with this one.
    pub fn put(&mut self, slot: u32, text: Vec<u8>)
        requires slot { slot < length self.old }
        ensures text { self.new ≡ slice_set self.old slot text.items }
    {
        self.texts.put(slot as usize, text);
    }

    /// Replaces the slot's text with a copy of the bytes. After a refusal the text is as it was.
    fn replace(&mut self, slot: usize, bytes: &[u8]) -> Result<(), AllocError>
        requires slot { slot < length self.old }
        ensures replaced { OnOk result (self.new ≡ slice_set self.old slot bytes.now) }
        ensures unchanged { OnErr result (self.new ≡ self.old) }
    {
        let mut text = text_in(&mut self.texts, self.alloc, slot);
        let replaced = replace(self.alloc, &mut text, bytes);
        self.texts.put(slot, text);
        replaced
    }
}

impl<C: ActiveCall> Ops<C> for TextTable {
    ghost shows = { ShowsOf };

    ghost stores = { StoresIn };

    fn show(&mut self, call: &mut C, tag: u64, page: &mut Page) -> Result<(), Fault> {
        let _ = call;
        fill(page, self.at(tag as usize));
        Ok(())
    }

    fn store(&mut self, call: &mut C, tag: u64, bytes: &[u8]) -> Result<usize, Fault> {
        let _ = call;
        if tag >= self.texts.len() as u64 {
            return Ok(bytes.len());
        }
        match self.replace(tag as usize, bytes) {
            Ok(()) => Ok(bytes.len()),
            Err(_) => Err(Fault { number: 12 }),
        }
    }
}
