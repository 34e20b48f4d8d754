//! Lines by the sites of what they are about.
ghost use Rattle.std.specs.Prelude.{◌≡◌, ◌<◌, ◌≤◌, ◌==◌, ℕ, None, Some, length, OnErr, OnOk, if◌then◌else◌};
ghost use Rattle.engine_parts.specs.code.FoundLines.{found_in};

use std::alloc::{AllocError, Global};

/// The number of a line for each site from a first one on, or 0 where there is none. It grows with the sites.
#[derive(Drop)]
pub struct SiteLines {
    pub first: u32,
    pub lines: Vec<u64>,
}

impl SiteLines {
    /// No lines. It takes no memory.
    pub fn new(alloc: Global, first: u32) -> SiteLines
        ensures lines { (site : ℕ) → found_in result.first result.lines.items site ≡ None }
        ensures first { result.first ≡ first }
    {
        SiteLines {
            first,
            lines: Vec::new(alloc),
        }
    }

    /// The line of a site.
    pub fn get(&self, site: u32) -> Option<u64>
        ensures { result ≡ found_in self.now.first self.now.lines.items site }
    {
        if site < self.first {
            return None;
        }
        match self.lines.get((site - self.first) as usize) {
            Some(line) if *line != 0 => Some(*line),
            _ => None,
        }
    }

    /// Notes the line of a site.
    pub fn set(&mut self, site: u32, line: u64) -> Result<(), AllocError>
        requires { 0 < line }
        ensures ok { OnOk result ((n : ℕ) → found_in self.new.first self.new.lines.items n ≡ (if n == site then Some line else found_in self.old.first self.old.lines.items n)) }
        ensures err { OnErr result ((n : ℕ) → found_in self.new.first self.new.lines.items n ≡ found_in self.old.first self.old.lines.items n) }
    {
        self.reach_down(site)?;
        let index = (site - self.first) as usize;
        self.reach_up(index)?;
        self.lines[index] = line;
        Ok(())
    }

    /// Begins at a site, or before it.
    fn reach_down(&mut self, site: u32) -> Result<(), AllocError>
        ensures first { OnOk result (self.new.first ≤ site) }
        ensures lines { (n : ℕ) → found_in self.new.first self.new.lines.items n ≡ found_in self.old.first self.old.lines.items n }
    {
        while site < self.first {
            self.lines.insert(0, 0)?;
            self.first -= 1;
        }
        Ok(())
    }

    /// Has more numbers than an index.
    fn reach_up(&mut self, index: usize) -> Result<(), AllocError>
        ensures first { self.new.first ≡ self.old.first }
        ensures length { OnOk result (index < length self.new.lines.items) }
        ensures lines { (n : ℕ) → found_in self.new.first self.new.lines.items n ≡ found_in self.old.first self.old.lines.items n }
    {
        while self.lines.len() <= index {
            self.lines.push(0)?;
        }
        Ok(())
    }
}
