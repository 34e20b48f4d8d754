ghost use Rattle.std.specs.Prelude.{◌≡◌, ◌≢◌, ◌≤◌, ◌++◌, ℕ, List, Some, length, take, IsErrOf, OnOk, OnErr, IsSomeAnd, option_map};
ghost use Rattle.guard_io.specs.Outside.{one_more};
ghost use Rattle.guard_io.specs.code.Memory.{content_of, content_or_empty, IsToFail};

use crate::files::{Files, LoadFault};

/// Files in memory. The first pair with a name counts. The calls whose numbers, from 0, are in
/// `failing` fail, and so do those of an absent name.
#[derive(Drop)]
pub struct MemFiles {
    pub names: Vec<(String, Vec<u8>)>,
    pub failing: Vec<u64>,
    /// How many calls there were; it stays at its last value.
    pub calls: u64,
    /// How many of them failed; it stays at its last value.
    pub faults: u64,
}

impl Files for MemFiles {
    ghost content = { λ files name. content_of files.names.items name };

    ghost faults = { λ files name. files.faults };

    fn load(&mut self, name: &str, most: u64, into: &mut Vec<u8>) -> Result<(), LoadFault>
        // It fails exactly where it is to.
        ensures refused { IsErrOf result LoadFault.Failed → IsToFail self.old.failing.items
            self.old.calls (content_of self.old.names.items name.now) }
        ensures refuses { IsToFail self.old.failing.items self.old.calls
            (content_of self.old.names.items name.now) → IsErrOf result LoadFault.Failed }
        ensures ok { OnOk result (IsSomeAnd (content_of self.old.names.items name.now) (λ bytes.
            into.new.items ≡ into.old.items ++ take most bytes)) }
        ensures err { OnErr result (into.new.items ≡ into.old.items) }
        ensures held { (more : List ℕ) × (into.new.items ≡ into.old.items ++ more)
            × (length more ≤ most) }
        ensures failed { IsErrOf result LoadFault.Failed
            → self.new.faults ≡ one_more self.old.faults }
        ensures no_fault { result ≢ Err LoadFault.Failed → self.new.faults ≡ self.old.faults }
        ensures kept { self.old.faults ≤ self.new.faults }
        ensures counted { self.new.calls ≡ one_more self.old.calls }
        ensures names { self.new.names ≡ self.old.names }
        ensures failing { self.new.failing ≡ self.old.failing }
    {
        let call = self.calls;
        self.calls = self.calls.saturating_add(1);
        if self.failing.contains(&call) {
            self.faults = self.faults.saturating_add(1);
            return Err(LoadFault::Failed);
        }
        let Some(bytes) = content_in(&self.names, name) else {
            self.faults = self.faults.saturating_add(1);
            return Err(LoadFault::Failed);
        };
        append_front(bytes, most, into)
    }
}

/// Files in memory that never fail. The first pair with a name counts, and an absent name has no
/// bytes.
#[derive(Drop)]
pub struct CleanFiles {
    pub names: Vec<(String, Vec<u8>)>,
}

impl Files for CleanFiles {
    ghost content = { λ files name. Some (content_or_empty files.names.items name) };

    ghost faults = { λ files name. 0 };

    fn load(&mut self, name: &str, most: u64, into: &mut Vec<u8>) -> Result<(), LoadFault>
        ensures ok { OnOk result (into.new.items
            ≡ into.old.items ++ take most (content_or_empty self.old.names.items name.now)) }
        ensures err { OnErr result (into.new.items ≡ into.old.items) }
        ensures held { (more : List ℕ) × (into.new.items ≡ into.old.items ++ more)
            × (length more ≤ most) }
        ensures never { result ≢ Err LoadFault.Failed }
        ensures unchanged { self.new ≡ self.old }
    {
        match content_in(&self.names, name) {
            Some(bytes) => append_front(bytes, most, into),
            None => Ok(()),
        }
    }
}

/// The content of the first pair with this name.
fn content_in<'a>(names: &'a [(String, Vec<u8>)], name: &str) -> Option<&'a [u8]>
    ensures { option_map (λ bytes. bytes.now) result ≡ content_of names.now name.now }
{
    match names.iter().find(|pair| pair.0.as_str() == name) {
        Some(pair) => Some(pair.1.as_slice()),
        None => None,
    }
}

/// Appends the first `most` bytes at once.
fn append_front(bytes: &[u8], most: u64, into: &mut Vec<u8>) -> Result<(), LoadFault>
    ensures ok { OnOk result (into.new.items ≡ into.old.items ++ take most bytes.now) }
    ensures err { OnErr result (into.new.items ≡ into.old.items) }
    ensures memory { result ≢ Err LoadFault.Failed }
    ensures held { (more : List ℕ) × (into.new.items ≡ into.old.items ++ more)
        × (length more ≤ most) }
{
    let wanted = most.min(bytes.len() as u64) as usize;
    match into.extend_from_slice(&bytes[..wanted]) {
        Ok(()) => Ok(()),
        Err(_) => Err(LoadFault::Memory),
    }
}
