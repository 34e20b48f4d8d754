//! Lines by the frames and the sites of what they are about.
ghost use Rattle.std.specs.Prelude.{◌≡◌, ◌+◌, ◌<◌, ◌≤◌, ℕ, [], Some, length, slice_get, IfOk, OnOk};
ghost use Rattle.engine_parts.specs.code.FrameLines.{AreCopied, AreKept, ArePlacesApart, ArePlacesWithin, Widens, index_in, line_at, line_in, number_in, place_in};

use std::alloc::{AllocError, Global};

/// The sites of a frame whose lines are kept side by side: which is the first, where its line is kept, and how many they
/// are.
#[derive(Clone, Copy)]
pub struct SiteSpan {
    pub first: u32,
    pub start: u32,
    pub count: u32,
}

/// Room is made for so many frames beyond those that there are.
const FRAMES: usize = 1 << 16;

/// Room is made for the lines of so many parts beyond those that there are.
const LINES: usize = 1 << 18;

/// The lines of the parts of each frame. All frames share one vector, of which each has a span: the number of a line for
/// each of its sites, or 0 where there is none. A frame that needs more sites than its span has gets another one behind all
/// others.
#[derive(Drop)]
pub struct FrameLines {
    pub spans: Vec<SiteSpan>,
    pub lines: Vec<u32>,
    /// How many sites the last frame of a scope has needed, by the first of them: the next one needs about as many.
    pub needed: Vec<u32>,
    pub ghost within: { ArePlacesWithin spans.items (length lines.items) },
    pub ghost apart: { ArePlacesApart spans.items },
}

impl FrameLines {
    /// No frames. It takes no memory.
    pub fn new(alloc: Global) -> FrameLines
        ensures { result.spans.items ≡ [] }
    {
        FrameLines {
            spans: Vec::new(alloc),
            lines: Vec::new(alloc),
            needed: Vec::new(alloc),
        }
    }

    /// One frame more, whose sites begin at a first one or behind it. It has no lines.
    pub fn add_frame(&mut self, first: u32) -> Result<(), AllocError>
        ensures frames { length self.old.spans.items ≤ length self.new.spans.items }
        ensures added { OnOk result (length self.old.spans.items + 1 ≤ length self.new.spans.items) }
        ensures lines { (n m : ℕ) → line_in self.new.spans.items self.new.lines.items n m ≡ line_in self.old.spans.items self.old.lines.items n m }
    {
        self.make_room()?;
        self.spans.push(SiteSpan {
            first,
            start: 0,
            count: 0,
        })?;
        Ok(())
    }

    /// Makes room for many frames, and the lines of many parts, beyond those that there are. Room that is not used takes no
    /// memory of the machine, and a vector that is this large from the start grows in place, where one that is doubled from
    /// little leaves its former places behind. It is asked for at each frame, since an engine begins without memory, and keeps
    /// no note of what it has asked for. So the second frame doubles the room of the first, and later it is doubled while so
    /// much of it is still left.
    fn make_room(&mut self) -> Result<(), AllocError>
        ensures spans { self.new.spans.items ≡ self.old.spans.items }
        ensures lines { self.new.lines.items ≡ self.old.lines.items }
    {
        self.spans.reserve(FRAMES)?;
        self.lines.reserve(LINES)?;
        Ok(())
    }

    /// The line of a site in the frame of a number.
    pub fn get(&self, frame: u64, site: u32) -> Option<u64>
        ensures { result ≡ line_in self.now.spans.items self.now.lines.items frame site }
    {
        let index = place_in(&self.spans, frame, site)?;
        line_at(&self.lines, index)
    }

    /// Notes the line of a site in the frame of a number.
    pub fn set(&mut self, frame: u64, site: u32, line: u64) -> Result<(), AllocError>
        requires frame { frame < length self.old.spans.items }
        requires line { 0 < line }
        ensures frames { length self.new.spans.items ≡ length self.old.spans.items }
        ensures line { OnOk result (line_in self.new.spans.items self.new.lines.items frame site ≡ Some line) }
        ensures others { OnOk result ((n m : ℕ) → (n ≡ frame → m ≡ site → ⊥)
            → line_in self.new.spans.items self.new.lines.items n m ≡ line_in self.old.spans.items self.old.lines.items n m) }
    {
        // So many lines take more memory than there is.
        let Ok(number) = u32::try_from(line) else {
            return Err(AllocError);
        };
        let index = self.room_for(frame, site)?;
        self.lines[index] = number;
        Ok(())
    }

    /// Where the line of a site in a frame is kept. Where it has no place, the span of the frame is moved behind the others.
    fn room_for(&mut self, frame: u64, site: u32) -> Result<usize, AllocError>
        requires { frame < length self.old.spans.items }
        ensures frames { length self.new.spans.items ≡ length self.old.spans.items }
        ensures place { IfOk result (λ index. place_in self.new.spans.items frame site ≡ Some index) }
        ensures lines { (n m : ℕ) → line_in self.new.spans.items self.new.lines.items n m ≡ line_in self.old.spans.items self.old.lines.items n m }
    {
        let span = self.spans[frame as usize];
        if let Some(index) = index_in(span, u64::from(site)) {
            note_needed(&mut self.needed, span.first, sites_upto(span.first, site))?;
            return Ok(index);
        }
        let expected = take_needed(&mut self.needed, span);
        let wider = wider_span(span, site, expected, self.lines.len())?;
        let offset = site - wider.first;
        note_needed(&mut self.needed, wider.first, sites_upto(wider.first, site))?;
        copy_lines(&mut self.lines, span, wider.first, wider.count)?;
        self.spans[frame as usize] = wider;
        Ok(wider.start as usize + offset as usize)
    }
}

/// Where the line of a site in the frame of a number is kept.
fn place_in(spans: &[SiteSpan], frame: u64, site: u32) -> Option<usize>
    ensures { result ≡ place_in spans.now frame site }
{
    let span = span_of(spans, frame)?;
    index_in(span, u64::from(site))
}

/// The span of the frame of a number.
fn span_of(spans: &[SiteSpan], frame: u64) -> Option<SiteSpan>
    ensures { result ≡ slice_get spans.now frame }
{
    spans.get(frame as usize).copied()
}

/// Where the line of a site is kept, by the span of its frame.
fn index_in(span: SiteSpan, site: u64) -> Option<usize>
    ensures { result ≡ index_in span site }
{
    if site < u64::from(span.first) {
        return None;
    }
    let offset = site - u64::from(span.first);
    if offset < u64::from(span.count) {
        return Some(span.start as usize + offset as usize);
    }
    None
}

/// The line that is kept at an index.
fn line_at(lines: &[u32], index: usize) -> Option<u64>
    ensures { result ≡ line_at lines.now index }
{
    match lines.get(index) {
        Some(line) if *line != 0 => Some(u64::from(*line)),
        _ => None,
    }
}

/// The number of the line of a site in a span, or 0 where it has none.
fn number_in(span: SiteSpan, lines: &[u32], site: u64) -> u32
    ensures { result ≡ number_in span lines.now site }
{
    match index_in(span, site) {
        Some(index) => lines.get(index).copied().unwrap_or(0),
        None => 0,
    }
}

/// A span that begins at an index, with the sites of another and one more. It has as many sites as are expected, and twice
/// as many as the other, so that spans are moved seldom.
fn wider_span(
    span: SiteSpan,
    site: u32,
    expected: u32,
    start: usize,
) -> Result<SiteSpan, AllocError>
    ensures { IfOk result (λ wider. Widens span site start wider) }
{
    let first = span.first.min(site);
    let end = (u64::from(span.first) + u64::from(span.count)).max(u64::from(site) + 1);
    let wished = u64::from(first) + u64::from(expected).max(2 * u64::from(span.count));
    // So many sites, or so many numbers, take more memory than there is.
    let Ok(count) = u32::try_from(end.max(wished) - u64::from(first)) else {
        return Err(AllocError);
    };
    let Ok(start) = u32::try_from(start) else {
        return Err(AllocError);
    };
    Ok(SiteSpan {
        first,
        start,
        count,
    })
}

/// Puts the numbers of so many sites from a first one on behind the others, as they are in a span.
fn copy_lines(
    lines: &mut Vec<u32>,
    span: SiteSpan,
    first: u32,
    count: u32,
) -> Result<(), AllocError>
    requires { (site index : ℕ) → index_in span site ≡ Some index → index < length lines.old.items }
    ensures kept { AreKept lines.old.items lines.new.items }
    ensures copied { OnOk result (AreCopied lines.old.items span first count lines.new.items) }
{
    for offset in 0..count {
        let line = number_in(span, lines, u64::from(first) + u64::from(offset));
        lines.push(line)?;
    }
    Ok(())
}

/// How many sites there are from a first one up to a site.
fn sites_upto(first: u32, site: u32) -> u32 {
    site.saturating_sub(first).saturating_add(1)
}

/// How many sites a frame that has none yet is expected to need: as many as the one before it. What it needs itself is counted
/// from here on.
fn take_needed(needed: &mut Vec<u32>, span: SiteSpan) -> u32 {
    if span.count > 0 {
        return 0;
    }
    match needed.get_mut(span.first as usize) {
        Some(count) => {
            let expected = *count;
            *count = 0;
            expected
        }
        None => 0,
    }
}

/// Notes how many sites a frame needs whose sites begin at a first one.
fn note_needed(needed: &mut Vec<u32>, first: u32, count: u32) -> Result<(), AllocError> {
    let index = first as usize;
    if needed.len() <= index {
        needed.resize(index + 1, 0)?;
    }
    if let Some(most) = needed.get_mut(index) {
        *most = (*most).max(count);
    }
    Ok(())
}
