//! The words of a line, taken one by one. All functions are inlined, for the sake of the rows of the grammar.

ghost use Rattle.std.specs.Prelude.{◌≡◌, ◌≤◌, ◌<◌, ℕ, List, Option, Some, None, IfSome, position, if◌then◌else◌};
ghost use Rattle.std.specs.Option.{option_map, option_and_then};
ghost use Rattle.kf_script.specs.Requests.{is_space, first_word, behind, next_word, behind_next, is_over, last_word, whole_text, path_of, mode_of, file_of, offset_of, length_of, want_of};

use super::kinds::{file_in, length_in, mode_in, offset_in, path_in, want_in};
use super::search::{space_behind_letter, space_in, space_in_two};
use super::spelling::spells;
use std::marker::Model;

/// What is left of a line. At first this is the whole line. After a word was taken, it is nothing, or the
/// text after that word's space.
#[derive(Drop)]
pub struct LineWords<'a> {
    later: Option<&'a [u8]>,
}

impl<'a> Model for LineWords<'a> {
    ghost Value = { Option (List ℕ) };

    ghost view = { λ words. option_map (λ later. later.now) words.later };
}

impl<'a> LineWords<'a> {
    /// A line from which no word was taken yet.
    #[inline(always)]
    pub fn new(line: &'a [u8]) -> LineWords<'a>
        ensures { result ≡ Some line.now }
    {
        LineWords { later: Some(line) }
    }

    /// Takes the first word of `text`, which is all that is left. `space` is the place of the first space in
    /// `text`, if there is one.
    #[inline(always)]
    fn cut(&mut self, text: &'a [u8], space: Option<usize>) -> &'a [u8]
        requires space { space ≡ position is_space text.now }
        ensures word { result.now ≡ first_word text.now }
        ensures later { self.new ≡ behind text.now }
    {
        match space {
            Some(at) => {
                self.later = Some(&text[at + 1..]);
                &text[..at]
            }
            None => {
                self.later = None;
                text
            }
        }
    }

    /// Takes the next word, if anything is left: the text before the next space. This word may be empty.
    #[inline(always)]
    pub fn next(&mut self) -> Option<&'a [u8]>
        ensures word { option_map (λ word. word.now) result ≡ next_word self.old }
        ensures later { self.new ≡ behind_next self.old }
    {
        let text = self.later?;
        Some(self.cut(text, space_in(text)))
    }

    /// Like `next`, for a word that is likely to have one letter.
    #[inline(always)]
    fn next_letter(&mut self) -> Option<&'a [u8]>
        ensures word { option_map (λ word. word.now) result ≡ next_word self.old }
        ensures later { self.new ≡ behind_next self.old }
    {
        let text = self.later?;
        Some(self.cut(text, space_behind_letter(text)))
    }

    /// Like `next`, for a word that is likely to be the last one and to have one or two letters.
    #[inline(always)]
    fn next_of_two(&mut self) -> Option<&'a [u8]>
        ensures word { option_map (λ word. word.now) result ≡ next_word self.old }
        ensures later { self.new ≡ behind_next self.old }
    {
        let text = self.later?;
        Some(self.cut(text, space_in_two(text)))
    }

    /// Takes a path or a name.
    #[inline(always)]
    pub fn path(&mut self) -> Option<&'a [u8]>
        ensures value { option_map (λ word. word.now) result ≡ option_and_then path_of (next_word self.old) }
        ensures later { self.new ≡ behind_next self.old }
    {
        path_in(self.next()?)
    }

    /// Takes a mode.
    #[inline(always)]
    pub fn mode(&mut self) -> Option<u16>
        ensures value { result ≡ option_and_then mode_of (next_word self.old) }
        ensures later { self.new ≡ behind_next self.old }
        ensures range { IfSome result (λ mode. mode ≤ 511) }
    {
        mode_in(self.next()?)
    }

    /// Takes the letter of a file.
    #[inline(always)]
    pub fn file(&mut self) -> Option<usize>
        ensures value { result ≡ option_and_then file_of (next_word self.old) }
        ensures later { self.new ≡ behind_next self.old }
        ensures range { IfSome result (λ file. file < 26) }
    {
        file_in(self.next_letter()?)
    }

    /// Takes an offset.
    #[inline(always)]
    pub fn offset(&mut self) -> Option<u64>
        ensures value { result ≡ option_and_then offset_of (next_word self.old) }
        ensures later { self.new ≡ behind_next self.old }
        ensures range { IfSome result (λ offset. offset ≤ 4294967295) }
    {
        offset_in(self.next()?)
    }

    /// Takes a length.
    #[inline(always)]
    pub fn length(&mut self) -> Option<u64>
        ensures value { result ≡ option_and_then length_of (next_word self.old) }
        ensures later { self.new ≡ behind_next self.old }
        ensures range { IfSome result (λ length. length ≤ 65535) }
    {
        length_in(self.next()?)
    }

    /// Takes the word that says whether a file is opened for reading, and whether for writing.
    #[inline(always)]
    pub fn want(&mut self) -> Option<(bool, bool)>
        ensures value { result ≡ option_and_then want_of (next_word self.old) }
        ensures later { self.new ≡ behind_next self.old }
    {
        want_in(self.next_of_two()?)
    }

    /// Returns `Some` if nothing is left, and else `None`.
    #[inline(always)]
    pub fn end(&self) -> Option<()>
        ensures { result ≡ (if is_over self.now then Some tt else None) }
    {
        match self.later {
            None => Some(()),
            Some(_) => None,
        }
    }

    /// Returns `Some(true)` if exactly this word is left, `Some(false)` if nothing is left, and `None` if
    /// something else is left.
    #[inline(always)]
    pub fn last(&self, last: &[u8]) -> Option<bool>
        ensures { result ≡ last_word last.now self.now }
    {
        match self.later {
            None => Some(false),
            Some(word) if spells(word, last) => Some(true),
            Some(_) => None,
        }
    }

    /// All that is left, including spaces; empty if nothing is left.
    #[inline(always)]
    pub fn text(&self) -> &'a [u8]
        ensures { result.now ≡ whole_text self.now }
    {
        self.later.unwrap_or(&[])
    }
}
