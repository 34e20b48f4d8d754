//! Texts with the places of their lines.
ghost use Rattle.std.specs.Prelude.{◌≡◌, ◌+◌, ◌-◌, ◌≤◌, length, nat_le, slice_index_or, IfOk};
ghost use Rattle.doc_values.specs.Limits.{template_limit};
ghost use Rattle.byte_lanes.specs.code.LineStarts.{starts_of_lines};
ghost use Rattle.doc_values.specs.Position.{line_at, column_at};

use byte_lanes::line_starts;
use std::alloc::{AllocError, Global};

/// A text of at most 8 MiB, and where its lines begin: so a place in it is found by halves, and not by a scan.
#[derive(Drop)]
pub struct Lined<'t> {
    pub text: &'t str,
    starts: Vec<u32>,
    pub ghost lines: { starts.items ≡ starts_of_lines text.now },
    pub ghost small: { length text.now ≤ template_limit },
}

impl<'t> Lined<'t> {
    /// Finds the lines of a text.
    pub fn new(alloc: Global, text: &'t str) -> Result<Lined<'t>, AllocError>
        requires { length text.now ≤ template_limit }
        ensures { IfOk result (λ lined. lined.text.now ≡ text.entry.now) }
    {
        let starts = line_starts(alloc, text.as_bytes())?;
        Ok(Lined { text, starts })
    }

    /// The line and the column of a byte offset, both from 1; those of the end where it is past the text.
    pub(crate) fn place(&self, at: u32) -> (u32, u32)
        ensures line { result.0 ≡ line_at self.now.text.now at }
        ensures column { result.1 ≡ column_at self.now.text.now at }
    {
        let size = self.text.len() as u32;
        if at < size {
            self.place_within(at)
        } else {
            self.place_within(size)
        }
    }

    /// The line and the column of a byte offset in the text or at its end.
    fn place_within(&self, at: u32) -> (u32, u32)
        requires { at ≤ length self.now.text.now }
        ensures line { result.0 ≡ line_at self.now.text.now at }
        ensures column { result.1 ≡ column_at self.now.text.now at }
    {
        let line = self.line_of(at);
        (line as u32, at - self.starts[line - 1] + 1)
    }

    /// How many lines begin at or before a byte offset.
    fn line_of(&self, at: u32) -> usize
        requires { at ≤ length self.now.text.now }
        ensures line { result ≡ line_at self.now.text.now at }
        ensures column { slice_index_or self.now.starts.items (result - 1) 0 + column_at self.now.text.now at ≡ at + 1 }
        ensures some { 1 ≤ result }
        ensures within { result ≤ length self.now.starts.items }
    {
        self.starts.as_slice().partition_point(
            |start: &u32| -> bool
                ensures { result ≡ nat_le start.now at }
            { *start <= at },
        )
    }
}
