ghost use Rattle.std.specs.Prelude.{◌≡◌, ◌≢◌, ◌≤◌, ◌<◌, ◌++◌, ℕ, List, None, Err, length, take, IsErrOf, OnOk, OnErr, IfOk};
ghost use Rattle.std.specs.Option.{ForSome};
ghost use Rattle.std.specs.Io.KnownBytes.{Consumes, IsAtEnd};
ghost use Rattle.guard_io.specs.Outside.{IsPrefix, one_more};

use crate::files::{Files, LoadFault};
use std::fs;
use std::io::Read;

/// Files of the system. They tell no contents; a file that is missing or cannot be read is a
/// fault.
#[derive(Drop)]
pub struct RealFiles<'r, R: std::rt::Files> {
    pub rt: &'r R,
    /// How many loads were answered with an error; it stays at its last value.
    pub faults: u64,
}

impl<'r, R: std::rt::Files> Files for RealFiles<'r, R> {
    ghost content = { λ files name. None };

    ghost faults = { λ files name. files.faults };

    fn load(&mut self, name: &str, most: u64, into: &mut Vec<u8>) -> Result<(), LoadFault>
        ensures held { (more : List ℕ) × (into.new.items ≡ into.old.items ++ more)
            × (length more ≤ most) }
        ensures failed { OnErr result (self.new.faults ≡ one_more self.old.faults) }
        ensures no_fault { OnOk result (self.new.faults ≡ self.old.faults) }
        ensures kept { self.old.faults ≤ self.new.faults }
    {
        match append_file(self.rt, name, most, into) {
            Ok(()) => Ok(()),
            Err(fault) => {
                self.faults = self.faults.saturating_add(1);
                Err(fault)
            }
        }
    }
}

/// Opens a file and appends the first `most` bytes of it.
fn append_file<R: std::rt::Files>(
    rt: &R,
    name: &str,
    most: u64,
    into: &mut Vec<u8>,
) -> Result<(), LoadFault>
    ensures held { (more : List ℕ) × (into.new.items ≡ into.old.items ++ more)
        × (length more ≤ most) }
{
    let Ok(mut file) = fs::open(rt, name) else {
        return Err(LoadFault::Failed);
    };
    append_read(&mut file, most, into)
}

/// The bytes that one read asks for at most.
const LONGEST_READ: u64 = 65536;

/// Appends the first `most` bytes that a reader gives. Each turn but the last takes a byte.
fn append_read<T: Read>(reader: &mut T, most: u64, into: &mut Vec<u8>) -> Result<(), LoadFault>
    ensures ok { OnOk result (ForSome (T.remaining reader.old) (λ bytes.
        into.new.items ≡ into.old.items ++ take most bytes)) }
    ensures err { OnErr result (ForSome (T.remaining reader.old) (λ bytes. (front : List ℕ)
        × IsPrefix front (take most bytes) × (into.new.items ≡ into.old.items ++ front))) }
    ensures held { (more : List ℕ) × (into.new.items ≡ into.old.items ++ more)
        × (length more ≤ most) }
{
    let mut buffer = Vec::new(*into.allocator());
    match buffer.resize(most.min(LONGEST_READ) as usize, 0u8) {
        Ok(()) => {}
        Err(_) => return Err(LoadFault::Memory),
    }
    let mut left = most;
    while left > 0 {
        let wanted = left.min(LONGEST_READ) as usize;
        match append_piece(reader, &mut buffer[..wanted], into) {
            Ok(0) => return Ok(()),
            Ok(count) => left -= count as u64,
            Err(fault) => return Err(fault),
        }
    }
    Ok(())
}

/// Appends the bytes of one read, and returns their number; 0 is the end.
fn append_piece<T: Read>(
    reader: &mut T,
    buffer: &mut [u8],
    into: &mut Vec<u8>,
) -> Result<usize, LoadFault>
    requires { 0 < length buffer.old }
    ensures ok { IfOk result (λ count. (piece : List ℕ) × (length piece ≡ count)
        × (into.new.items ≡ into.old.items ++ piece)
        × Consumes (T.remaining reader.old) (T.remaining reader.new) piece) }
    ensures bound { IfOk result (λ count. count ≤ length buffer.old) }
    ensures end { IfOk result (λ count. count ≡ 0 → IsAtEnd (T.remaining reader.new)) }
    ensures err { OnErr result (into.new.items ≡ into.old.items) }
{
    let Ok(count) = reader.read(buffer) else {
        return Err(LoadFault::Failed);
    };
    match into.extend_from_slice(&buffer[..count]) {
        Ok(()) => Ok(count),
        Err(_) => Err(LoadFault::Memory),
    }
}
