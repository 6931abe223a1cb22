//! The rows of the grammar. For each command, a function takes the words after it, one by one, and makes
//! their request. Each function is inlined, so that the words stay in registers and the request is built in
//! its final place.

ghost use Rattle.std.specs.Prelude.{◌≡◌, codes, IfSome};
ghost use Rattle.std.specs.Option.{option_map};
ghost use Rattle.kf_script.specs.Requests.{request_words, IsInRange, reads_of};

use super::request::Request;
use super::words::LineWords;

/// `mkdir PATH` or `mkdir PATH off`.
#[inline(always)]
pub fn make_directory(mut words: LineWords<'_>) -> Option<Request<'_>>
    ensures value { option_map request_words result ≡ reads_of (codes "mkdir") words.entry }
    ensures range { IfSome result (λ request. IsInRange (request_words request)) }
{
    let path = words.path()?;
    let is_off = words.last(b"off")?;
    Some(Request::MakeDirectory {
        path,
        is_live: !is_off,
    })
}

/// `file PATH MODE TEXT`.
#[inline(always)]
pub fn make_file(mut words: LineWords<'_>) -> Option<Request<'_>>
    ensures value { option_map request_words result ≡ reads_of (codes "file") words.entry }
    ensures range { IfSome result (λ request. IsInRange (request_words request)) }
{
    let path = words.path()?;
    let mode = words.mode()?;
    let text = words.text();
    Some(Request::MakeFile { path, mode, text })
}

/// `link PATH TARGET`.
#[inline(always)]
pub fn make_link(mut words: LineWords<'_>) -> Option<Request<'_>>
    ensures value { option_map request_words result ≡ reads_of (codes "link") words.entry }
    ensures range { IfSome result (λ request. IsInRange (request_words request)) }
{
    let path = words.path()?;
    let target = words.path()?;
    words.end()?;
    Some(Request::MakeLink { path, target })
}

/// `activate PATH`.
#[inline(always)]
pub fn activate(mut words: LineWords<'_>) -> Option<Request<'_>>
    ensures value { option_map request_words result ≡ reads_of (codes "activate") words.entry }
    ensures range { IfSome result (λ request. IsInRange (request_words request)) }
{
    let path = words.path()?;
    words.end()?;
    Some(Request::Activate { path })
}

/// `ls PATH`.
#[inline(always)]
pub fn list_names(mut words: LineWords<'_>) -> Option<Request<'_>>
    ensures value { option_map request_words result ≡ reads_of (codes "ls") words.entry }
    ensures range { IfSome result (λ request. IsInRange (request_words request)) }
{
    let path = words.path()?;
    words.end()?;
    Some(Request::ListNames { path })
}

/// `stat PATH`.
#[inline(always)]
pub fn stat(mut words: LineWords<'_>) -> Option<Request<'_>>
    ensures value { option_map request_words result ≡ reads_of (codes "stat") words.entry }
    ensures range { IfSome result (λ request. IsInRange (request_words request)) }
{
    let path = words.path()?;
    words.end()?;
    Some(Request::Stat { path })
}

/// `readlink PATH`.
#[inline(always)]
pub fn read_link(mut words: LineWords<'_>) -> Option<Request<'_>>
    ensures value { option_map request_words result ≡ reads_of (codes "readlink") words.entry }
    ensures range { IfSome result (λ request. IsInRange (request_words request)) }
{
    let path = words.path()?;
    words.end()?;
    Some(Request::ReadLink { path })
}

/// `mv PATH DIR NAME`.
#[inline(always)]
pub fn move_node(mut words: LineWords<'_>) -> Option<Request<'_>>
    ensures value { option_map request_words result ≡ reads_of (codes "mv") words.entry }
    ensures range { IfSome result (λ request. IsInRange (request_words request)) }
{
    let path = words.path()?;
    let dir = words.path()?;
    let name = words.path()?;
    words.end()?;
    Some(Request::Move { path, dir, name })
}

/// `rm PATH`.
#[inline(always)]
pub fn remove(mut words: LineWords<'_>) -> Option<Request<'_>>
    ensures value { option_map request_words result ≡ reads_of (codes "rm") words.entry }
    ensures range { IfSome result (λ request. IsInRange (request_words request)) }
{
    let path = words.path()?;
    words.end()?;
    Some(Request::Remove { path })
}

/// `open H PATH r|w|rw`.
#[inline(always)]
pub fn open(mut words: LineWords<'_>) -> Option<Request<'_>>
    ensures value { option_map request_words result ≡ reads_of (codes "open") words.entry }
    ensures range { IfSome result (λ request. IsInRange (request_words request)) }
{
    let file = words.file()?;
    let path = words.path()?;
    let (reads, writes) = words.want()?;
    words.end()?;
    Some(Request::OpenFile {
        file,
        path,
        reads,
        writes,
    })
}

/// `read H OFF LEN`.
#[inline(always)]
pub fn read(mut words: LineWords<'_>) -> Option<Request<'_>>
    ensures value { option_map request_words result ≡ reads_of (codes "read") words.entry }
    ensures range { IfSome result (λ request. IsInRange (request_words request)) }
{
    let file = words.file()?;
    let offset = words.offset()?;
    let most = words.length()? as usize;
    words.end()?;
    Some(Request::ReadFile { file, offset, most })
}

/// `write H TEXT`.
#[inline(always)]
pub fn write(mut words: LineWords<'_>) -> Option<Request<'_>>
    ensures value { option_map request_words result ≡ reads_of (codes "write") words.entry }
    ensures range { IfSome result (λ request. IsInRange (request_words request)) }
{
    let file = words.file()?;
    let text = words.text();
    Some(Request::WriteFile { file, text })
}

/// `poll H`.
#[inline(always)]
pub fn poll(mut words: LineWords<'_>) -> Option<Request<'_>>
    ensures value { option_map request_words result ≡ reads_of (codes "poll") words.entry }
    ensures range { IfSome result (λ request. IsInRange (request_words request)) }
{
    let file = words.file()?;
    words.end()?;
    Some(Request::PollFile { file })
}

/// `notify PATH`.
#[inline(always)]
pub fn notify(mut words: LineWords<'_>) -> Option<Request<'_>>
    ensures value { option_map request_words result ≡ reads_of (codes "notify") words.entry }
    ensures range { IfSome result (λ request. IsInRange (request_words request)) }
{
    let path = words.path()?;
    words.end()?;
    Some(Request::Notify { path })
}

/// `close H`.
#[inline(always)]
pub fn close(mut words: LineWords<'_>) -> Option<Request<'_>>
    ensures value { option_map request_words result ≡ reads_of (codes "close") words.entry }
    ensures range { IfSome result (λ request. IsInRange (request_words request)) }
{
    let file = words.file()?;
    words.end()?;
    Some(Request::CloseFile { file })
}

/// `hide PATH`.
#[inline(always)]
pub fn hide(mut words: LineWords<'_>) -> Option<Request<'_>>
    ensures value { option_map request_words result ≡ reads_of (codes "hide") words.entry }
    ensures range { IfSome result (λ request. IsInRange (request_words request)) }
{
    let path = words.path()?;
    words.end()?;
    Some(Request::Hide { path })
}

/// `show PATH`.
#[inline(always)]
pub fn show(mut words: LineWords<'_>) -> Option<Request<'_>>
    ensures value { option_map request_words result ≡ reads_of (codes "show") words.entry }
    ensures range { IfSome result (λ request. IsInRange (request_words request)) }
{
    let path = words.path()?;
    words.end()?;
    Some(Request::Show { path })
}

/// `commands`.
#[inline(always)]
pub fn count_commands(words: LineWords<'_>) -> Option<Request<'_>>
    ensures value { option_map request_words result ≡ reads_of (codes "commands") words.entry }
    ensures range { IfSome result (λ request. IsInRange (request_words request)) }
{
    words.end()?;
    Some(Request::CountCommands)
}

/// `compact`.
#[inline(always)]
pub fn compact(words: LineWords<'_>) -> Option<Request<'_>>
    ensures value { option_map request_words result ≡ reads_of (codes "compact") words.entry }
    ensures range { IfSome result (λ request. IsInRange (request_words request)) }
{
    words.end()?;
    Some(Request::Compact)
}

/// `plug NAME TEXT`.
#[inline(always)]
pub fn plug(mut words: LineWords<'_>) -> Option<Request<'_>>
    ensures value { option_map request_words result ≡ reads_of (codes "plug") words.entry }
    ensures range { IfSome result (λ request. IsInRange (request_words request)) }
{
    let name = words.path()?;
    let text = words.text();
    Some(Request::Plug { name, text })
}

/// `unplug NAME`.
#[inline(always)]
pub fn unplug(mut words: LineWords<'_>) -> Option<Request<'_>>
    ensures value { option_map request_words result ≡ reads_of (codes "unplug") words.entry }
    ensures range { IfSome result (λ request. IsInRange (request_words request)) }
{
    let name = words.path()?;
    words.end()?;
    Some(Request::Unplug { name })
}

/// `wait`.
#[inline(always)]
pub fn wait(words: LineWords<'_>) -> Option<Request<'_>>
    ensures value { option_map request_words result ≡ reads_of (codes "wait") words.entry }
    ensures range { IfSome result (λ request. IsInRange (request_words request)) }
{
    words.end()?;
    Some(Request::Wait)
}
