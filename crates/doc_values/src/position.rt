//! Lines and columns.
ghost use Rattle.std.specs.Prelude.{◌≡◌, ℕ, ◌+◌, ◌-◌, ◌^◌, ◌<◌, ◌≤◌, length};
ghost use Rattle.doc_values.specs.Position.{line_at, column_at};

/// The line and the column of a byte offset, both from 1. A line ends with a newline byte; columns count bytes.
pub fn place_of(bytes: &[u8], at: u32) -> (u32, u32)
    requires within { at ≤ length bytes.now }
    requires small { at < 2 ^ 32 - 1 }
    ensures line { result.0 ≡ line_at bytes.now at }
    ensures column { result.1 ≡ column_at bytes.now at }
{
    let mut line = 1;
    let mut column = 1;
    for i in 0..at {
        if bytes[i as usize] == b'\n' {
            line += 1;
            column = 1;
        } else {
            column += 1;
        }
    }
    (line, column)
}
