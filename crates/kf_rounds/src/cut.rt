//! Cutting a script in memory into its lines. Each line is looked at once.

ghost use Rattle.std.specs.Prelude.{◌≡◌, ◌≤◌, ◌∷◌, ◌<◌, [], map, position, IfOk, IfSome, IsOk, OnOk, length, vec_capacity};
ghost use Rattle.std.specs.Option.{option_map};
ghost use Rattle.std.specs.List.{slice_split};
ghost use Rattle.kf_script.specs.Lines.{is_newline, lines_of};
ghost use Rattle.kf_rounds.specs.Cutting.{later_lines};
ghost use Rattle.kf_rounds.specs.Kinds.{kind_by};
ghost use Rattle.kf_rounds.specs.KindViews.{kind_view};

use crate::kind::{LineKind, kind_of};
use memchr::memchr;
use std::alloc::{AllocError, Global};

/// The usual number of bytes of a line with its newline. If a script's lines are shorter on average, the list
/// of lines must grow while it is filled.
const USUAL_LINE: usize = 16;

/// The position of the first newline.
fn newline_at(script: &[u8]) -> Option<usize>
    ensures { result ≡ position is_newline script.now }
{
    memchr(b'\n', script)
}

/// The first line, and what follows the newline after it, if there is a newline.
fn cut_line(script: &[u8]) -> (&[u8], Option<&[u8]>)
    ensures cut { slice_split is_newline script.now
        ≡ result.0.now ∷ later_lines (option_map (λ text. text.now) result.1) }
    ensures shorter { IfSome result.1 (λ later. length later.now < length script.now) }
{
    match newline_at(script) {
        Some(at) => (&script[..at], Some(&script[at + 1..])),
        None => (script, None),
    }
}

/// What each line of a script is for. Empty lines are left out: they get no reply.
pub fn kinds_in(
    alloc: Global,
    script: &[u8],
    workers: usize,
) -> Result<Vec<LineKind<'_>>, AllocError>
    requires { workers ≤ 16 }
    ensures { IfOk result
        (λ kinds. map kind_view kinds.items ≡ map (kind_by workers) (lines_of script.now)) }
{
    let mut kinds = Vec::with_capacity(alloc, script.len() / USUAL_LINE)?;
    push_kinds(&mut kinds, script, workers)?;
    Ok(kinds)
}

/// Puts the kinds of a script's lines into an empty list. It cannot fail if the list has room for all of
/// them.
fn push_kinds<'a>(
    kinds: &mut Vec<LineKind<'a>>,
    script: &'a [u8],
    workers: usize,
) -> Result<(), AllocError>
    requires few { workers ≤ 16 }
    requires empty { kinds.old.items ≡ [] }
    ensures kinds { OnOk result
        (map kind_view kinds.new.items ≡ map (kind_by workers) (lines_of script.now)) }
    ensures fits { length (lines_of script.now) ≤ vec_capacity kinds.old → IsOk result }
{
    let mut left = Some(script);
    while let Some(text) = left {
        let (line, later) = cut_line(text);
        if !line.is_empty() {
            kinds.push(kind_of(line, workers))?;
        }
        left = later;
    }
    Ok(())
}
