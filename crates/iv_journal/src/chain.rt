//! `Chain`: the writer of a journal.
ghost use Rattle.std.specs.Prelude.{◌≡◌, ◌++◌, ◌∷◌, [], codes, false, length, take, true, OnErr, OnOk};
ghost use Rattle.hex.specs.Hex.{encode_lower};
ghost use Rattle.iv_journal.specs.Journal.{bytes_of, digest_behind, is_text, mark, no_digest};

use crate::lines::{COMMA, Line, digest_of, digits_of, is_text, mark};
use std::alloc::AllocError;
use std::marker::Model;

/// Why a line is not written.
#[derive(Debug, Drop)]
pub enum PushFault {
    /// It has a newline, a zero byte or too many bytes.
    NotText,
    /// A growth of memory was refused.
    Memory,
}

/// Where a journal ends: the digest of its last line.
#[derive(Drop)]
pub struct Chain {
    /// The SHA-256 digest of the last line, with all before it.
    digest: [u8; 32],
}

impl Model for Chain {
    ghost use Rattle.std.specs.Prelude.{List, ℕ};

    ghost Value = { List ℕ };

    ghost view = { λ c. c.digest };
}

/// Appends a line with its digest. If memory is refused, a front of it.
fn push_line(out: &mut Vec<u8>, digest: &[u8; 32], line: &Line) -> Result<(), AllocError>
    ensures pushed { OnOk result (out.new.items ≡ out.old.items
        ++ (mark line.now.is_last ++ (encode_lower digest.now ++ (codes "\"," ++ line.now.text)) ++ 10 ∷ [])) }
    ensures behind { take (length out.old.items) out.new.items ≡ out.old.items }
{
    out.extend_from_slice(mark(line.is_last))?;
    out.extend_from_slice(&digits_of(digest))?;
    out.extend_from_slice(COMMA)?;
    out.extend_from_slice(line.text)?;
    out.push(b'\n')?;
    Ok(())
}

impl Chain {
    /// That of a journal with no line.
    pub fn new() -> Chain
        ensures { result ≡ no_digest }
    {
        Chain { digest: [0; 32] }
    }

    /// That of a journal whose last line has this digest.
    pub fn behind(digest: [u8; 32]) -> Chain
        ensures { result ≡ digest }
    {
        Chain { digest }
    }

    /// Appends a line of the journal to what is to be written of it.
    ///
    /// # Errors
    /// `NotText` if it is none; `Memory` if a growth of memory was refused. Nothing is changed then.
    pub fn push(&mut self, out: &mut Vec<u8>, line: &Line) -> Result<(), PushFault>
        ensures written { OnOk result (out.new.items ≡ out.old.items ++ bytes_of self.old (line.now ∷ [])) }
        ensures digest { OnOk result (self.new ≡ digest_behind self.old (line.now ∷ [])) }
        ensures text { OnOk result (is_text line.now.text ≡ true) }
        ensures no_text { result ≡ Err PushFault.NotText → is_text line.now.text ≡ false }
        ensures same { OnErr result ((out.new.items ≡ out.old.items) × (self.new ≡ self.old)) }
    {
        if !is_text(line.text) {
            return Err(PushFault::NotText);
        }
        let digest = digest_of(&self.digest, line.is_last, line.text);
        let length = out.len();
        if push_line(out, &digest, line).is_err() {
            out.truncate(length);
            return Err(PushFault::Memory);
        }
        self.digest = digest;
        Ok(())
    }
}
