//! A locking script that is held.
ghost use Rattle.std.specs.Prelude.{◌≡◌, ◌≤◌, [], length, IsOk, IfOk, OnOk, OnErr};
ghost use Rattle.output_index.specs.Scripts.{script_text};

use arrayvec::ArrayVec;
use std::alloc::Global;
use uo_base::NoMemory;

/// So many bytes lie in the script itself. Those of all kinds of address fit, which have 22 to 34 bytes, and that to a key of 33 bytes,
/// which has 35.
const SHORT: usize = 40;

/// The bytes of a locking script. Nearly all scripts are short, and take no memory of their own.
#[derive(Drop)]
pub(crate) enum Script {
    Short(ArrayVec<u8, SHORT>),
    Long(Vec<u8>),
}

impl Script {
    pub fn empty() -> Self
        ensures { script_text result ≡ [] }
    {
        Script::Short(ArrayVec::new())
    }

    pub fn copied(alloc: Global, text: &[u8]) -> Result<Self, NoMemory>
        ensures same { IfOk result (λ script. script_text script ≡ text.now) }
        ensures short { length text.now ≤ 40 → IsOk result }
    {
        let mut short = ArrayVec::new();
        match short.try_extend_from_slice(text) {
            Ok(()) => Ok(Script::Short(short)),
            Err(_) => Ok(Script::Long(Vec::from_slice(alloc, text)?)),
        }
    }

    /// These bytes from now on. Memory is asked for only where they are many.
    pub fn set(&mut self, alloc: Global, text: &[u8]) -> Result<(), NoMemory>
        ensures same { OnOk result (script_text self.new ≡ text.now) }
        ensures short { length text.now ≤ 40 → IsOk result }
        ensures err { OnErr result (self.new ≡ self.old) }
    {
        match self {
            Script::Short(bytes) if text.len() <= SHORT => write_over(bytes, text),
            _ => *self = Script::copied(alloc, text)?,
        }
        Ok(())
    }

    /// No byte from now on, so that the memory of many is given back.
    pub fn clear(&mut self)
        ensures { script_text self.new ≡ [] }
    {
        match self {
            Script::Short(bytes) => bytes.clear(),
            Script::Long(_) => *self = Script::empty(),
        }
    }

    pub fn bytes(&self) -> &[u8]
        ensures { result.now ≡ script_text self.now }
    {
        match self {
            Script::Short(bytes) => bytes.as_slice(),
            Script::Long(bytes) => bytes.as_slice(),
        }
    }
}

fn write_over(bytes: &mut ArrayVec<u8, SHORT>, text: &[u8])
    requires { length text.now ≤ 40 }
    ensures { bytes.new.items ≡ text.now }
{
    bytes.clear();
    drop(bytes.try_extend_from_slice(text));
}
