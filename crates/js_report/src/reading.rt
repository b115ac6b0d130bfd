//! Reading a whole file.

ghost use Rattle.std.specs.Prelude.{◌≡◌, [], ◌∷◌, ◌++◌, IfErr, IfOk, OnOk, vec_len};
ghost use Rattle.js_report.specs.WholeFile.{IsWholeFile, FaultSays};

use js_outside::{BeginFault, Shelf};
use std::alloc::{AllocError, Global};

/// How many bytes a file may have.
pub const LONGEST_FILE: usize = 16_777_216;

/// How many bytes a read requests.
const BUFFER_LENGTH: usize = 65_536;

/// Why a file was not read.
#[derive(Clone, Copy, PartialEq, Eq, Debug)]
pub enum FileFault {
    /// More than [`LONGEST_FILE`] bytes were read.
    TooLong,

    /// The file was not begun, or a read failed. The shelf's count of faults rose.
    Read,

    /// Memory was refused.
    Memory,
}

impl From<AllocError> for FileFault {
    ghost use Rattle.js_report.specs.declared.reading.FileFault.TheVariants.{Memory};

    ghost from_gives = { λ _ fault. fault ≡ Memory };

    fn from(_: AllocError) -> FileFault {
        FileFault::Memory
    }
}

/// All bytes of a file. No other file is begun. After a fault part of the file may have been read.
pub fn read_file<H: Shelf>(alloc: Global, shelf: &mut H, name: &str) -> Result<Vec<u8>, FileFault>
    ensures told { H.told shelf.new ≡ H.told shelf.old }
    ensures whole { IfOk result (λ bytes. IsWholeFile (H.told shelf.old) name.now bytes.items) }
    ensures counted { OnOk result (H.faults shelf.new ≡ H.faults shelf.old) }
    ensures fault { IfErr result (FaultSays (H.told shelf.old) name.now (H.faults shelf.old) (H.faults shelf.new)) }
    ensures begun { H.begun shelf.new ≡ H.begun shelf.old ++ name.now ∷ [] }
{
    match shelf.begin(name) {
        Err(BeginFault::Failed) => return Err(FileFault::Read),
        Err(BeginFault::Memory) => return Err(FileFault::Memory),
        Ok(()) => {}
    }
    let mut buffer = empty_buffer(alloc, BUFFER_LENGTH)?;
    let mut bytes = Vec::new(alloc);
    'pieces: while bytes.len() <= LONGEST_FILE {
        match shelf.read(&mut buffer) {
            Err(_) => return Err(FileFault::Read),
            Ok(0) => return Ok(bytes),
            Ok(count) => bytes.extend_from_slice(&buffer[..count])?,
        }
    }
    Err(FileFault::TooLong)
}

/// A buffer of that length, for reads to fill.
fn empty_buffer(alloc: Global, length: usize) -> Result<Vec<u8>, AllocError>
    ensures { IfOk result (λ buffer. vec_len buffer ≡ length) }
{
    vec![in alloc; 0; length]
}
