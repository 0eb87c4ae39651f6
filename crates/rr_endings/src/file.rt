//! Files that are to be written.
ghost use Rattle.std.specs.Prelude.{◌≡◌, IfOk, string_bytes};
ghost use Rattle.rr_endings.specs.Texts.{write_fault_text};

use crate::text::Text;
use std::alloc::{AllocError, Global};

/// A file that is to be written, with the text that reports that its write failed.
#[derive(Drop)]
pub struct File {
    name: String,
    bytes: Vec<u8>,
    fault: String,
    ghost tells: { string_bytes fault ≡ write_fault_text (string_bytes name) },
}

fn write_fault_text(alloc: Global, name: &str) -> Result<String, AllocError>
    ensures { IfOk result (λ text. string_bytes text ≡ write_fault_text name.now) }
{
    format!(in alloc; "fault write {name}\n")
}

impl File {
    ghost use Rattle.rr_endings.specs.Views.{file_of, text_bytes};

    /// A file of these bytes under the name. The text of its fault is made here. The error is want of
    /// memory.
    pub fn new(alloc: Global, name: String, bytes: Vec<u8>) -> Result<File, AllocError>
        ensures { IfOk result (λ file. file_of file ≡ (string_bytes name, bytes.items)) }
    {
        let fault = write_fault_text(alloc, name.as_str())?;
        Ok(File { name, bytes, fault })
    }

    /// The name of the file.
    pub fn name(&self) -> &str
        ensures { result.now ≡ (file_of self.now).0 }
    {
        self.name.as_str()
    }

    /// The bytes of the file.
    pub fn bytes(&self) -> &[u8]
        ensures { result.now ≡ (file_of self.now).1 }
    {
        self.bytes.as_slice()
    }

    /// The text that reports that the write of this file failed.
    pub fn into_fault(self) -> Text
        ensures { text_bytes result ≡ write_fault_text (file_of self).0 }
    {
        Text::Made(self.fault)
    }
}
