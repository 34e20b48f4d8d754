//! Texts that are written, on out or on err.
ghost use Rattle.std.specs.Prelude.{◌≡◌};
ghost use Rattle.guard_inputs.specs.code.Refusals.{bytes_of};

use arrayvec::ArrayString;

/// A text that is written, if there is one: a short line stands on the stack, so that it wants no memory; what may be long stands
/// in memory.
#[derive(Drop)]
pub enum Written {
    Nothing,
    Short(ArrayString<64>),
    Long(Vec<u8>),
}

impl Written {
    pub fn as_bytes(&self) -> &[u8]
        ensures { result.now ≡ bytes_of self.now }
    {
        match self {
            Written::Nothing => &[],
            Written::Short(text) => text.as_str().as_bytes(),
            Written::Long(text) => text.as_slice(),
        }
    }
}
