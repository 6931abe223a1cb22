//! The text of a command.

ghost use Rattle.std.specs.Prelude.{◌≤◌, length};
ghost use Rattle.kf_script.specs.Lines.{line_limit};

/// The text of a command. It is not longer than a line may be (`line_limit` bytes).
#[derive(Clone, Copy)]
pub struct CommandText<'a> {
    pub bytes: &'a [u8],
    ghost short: { length bytes.now ≤ line_limit },
}
