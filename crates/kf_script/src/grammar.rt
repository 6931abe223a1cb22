//! The grammar of lines: one row for each command.

ghost use Rattle.std.specs.Prelude.{◌≡◌, ◌≤◌, length, drop, IfSome};
ghost use Rattle.std.specs.Option.{option_map};
ghost use Rattle.kf_script.specs.Lines.{line_limit};
ghost use Rattle.kf_script.specs.Requests.{request_words, IsInRange, rows, row_of, reads_of, request_of};

use super::request::Request;
use super::rows::{
    activate, close, compact, count_commands, hide, list_names, make_directory, make_file,
    make_link, move_node, notify, open, plug, poll, read, read_link, remove, show, stat, unplug,
    wait, write,
};
use super::spelling::spells;
use super::words::LineWords;

/// The request that a command makes of the words after it. The rows of the grammar come in the order of the
/// definition `rows`.
fn request<'a, B>(command: &[u8], words: LineWords<'a>) -> Option<Request<'a>>
    ensures value { option_map request_words result ≡ reads_of command.now words.entry }
    ensures range { IfSome result (λ request. IsInRange (request_words request)) }
{
    match command {
        word if spells(word, b"mkdir") => make_directory(words),
        word if spells(word, b"file") => make_file(words),
        word if spells(word, b"link") => make_link(words),
        word if spells(word, b"activate") => activate(words),
        word if spells(word, b"ls") => list_names(words),
        _ => request_of_a_node::<B>(command, words),
    }
}

/// The same, from the row of `stat` on. (The rows are split into groups, because the proof of a match grows
/// with the square of the number of its rows.)
#[inline(always)]
fn request_of_a_node<'a, B>(command: &[u8], words: LineWords<'a>) -> Option<Request<'a>>
    ensures value { option_map request_words result ≡ row_of (drop 5 rows) command.now words.entry }
    ensures range { IfSome result (λ request. IsInRange (request_words request)) }
{
    match command {
        word if spells(word, b"stat") => stat(words),
        word if spells(word, b"readlink") => read_link(words),
        word if spells(word, b"mv") => move_node(words),
        word if spells(word, b"rm") => remove(words),
        _ => request_of_a_file::<B>(command, words),
    }
}

/// The same, from the row of `open` on.
#[inline(always)]
fn request_of_a_file<'a, B>(command: &[u8], words: LineWords<'a>) -> Option<Request<'a>>
    ensures value { option_map request_words result ≡ row_of (drop 9 rows) command.now words.entry }
    ensures range { IfSome result (λ request. IsInRange (request_words request)) }
{
    match command {
        word if spells(word, b"open") => open(words),
        word if spells(word, b"read") => read(words),
        word if spells(word, b"write") => write(words),
        word if spells(word, b"poll") => poll(words),
        word if spells(word, b"notify") => notify(words),
        word if spells(word, b"close") => close(words),
        _ => request_of_the_rest::<B>(command, words),
    }
}

/// The same, from the row of `hide` on.
#[inline(always)]
fn request_of_the_rest<'a, B>(command: &[u8], words: LineWords<'a>) -> Option<Request<'a>>
    ensures value { option_map request_words result ≡ row_of (drop 15 rows) command.now words.entry }
    ensures range { IfSome result (λ request. IsInRange (request_words request)) }
{
    match command {
        word if spells(word, b"hide") => hide(words),
        word if spells(word, b"show") => show(words),
        word if spells(word, b"commands") => count_commands(words),
        word if spells(word, b"compact") => compact(words),
        word if spells(word, b"plug") => plug(words),
        word if spells(word, b"unplug") => unplug(words),
        word if spells(word, b"wait") => wait(words),
        _ => None,
    }
}

/// Like [`parse`], but puts the request into a place that the caller lends. A request that is returned would
/// be copied once more, and the board would wait for that copy.
///
/// `B` is the board that asks, or `()`. So each board has its own instance of this function, which is called
/// in only one place, and the compiler inlines it there.
pub(crate) fn parse_into<'a, B>(line: &'a [u8], asked: &mut Option<Request<'a>>)
    requires { length line.now ≤ line_limit }
    ensures value { option_map request_words asked.new ≡ request_of line.now }
    ensures range { IfSome asked.new (λ request. IsInRange (request_words request)) }
{
    let mut words = LineWords::new(line);
    *asked = match words.next() {
        Some(command) => request::<B>(command, words),
        None => None,
    };
}

/// Parses a line of at most 8,192 bytes into its request. It returns `None` if the line matches no row of the
/// grammar.
///
/// Condition: the line has at most 8,192 bytes.
pub fn parse(line: &[u8]) -> Option<Request<'_>>
    requires { length line.now ≤ line_limit }
    ensures value { option_map request_words result ≡ request_of line.now }
    ensures range { IfSome result (λ request. IsInRange (request_words request)) }
{
    let mut asked = None;
    parse_into::<()>(line, &mut asked);
    asked
}
