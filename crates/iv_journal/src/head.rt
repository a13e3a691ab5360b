//! `head_text` and `head_in`: the first text of a journal.
ghost use Rattle.std.specs.Prelude.{◌≡◌, IfOk, IfSome, None, false, length, true};
ghost use Rattle.iv_journal.specs.Journal.{head_of, is_head};

use crate::lines::{COMMA, FORM, behind, front};
use std::alloc::{AllocError, Global};

/// What the first text of a journal says.
#[derive(Drop)]
pub struct Head<'a> {
    /// Digits that no other journal has.
    pub epoch: &'a [u8],
    /// What its owner says.
    pub more: &'a [u8],
}

/// The first text of a journal, by 32 digits that no other journal has.
///
/// # Errors
/// If a growth of memory was refused.
pub fn head_text(alloc: Global, epoch: &[u8; 32], more: &[u8]) -> Result<Vec<u8>, AllocError>
    ensures text { IfOk result (λ text. text.items ≡ head_of epoch.now more.now) }
    ensures head { IfOk result (λ text. is_head text.items ≡ true) }
{
    let mut text = Vec::new(alloc);
    text.extend_from_slice(FORM)?;
    text.extend_from_slice(epoch)?;
    text.extend_from_slice(COMMA)?;
    text.extend_from_slice(more)?;
    Ok(text)
}

/// Whether a text is that of a journal's head.
pub fn is_head(text: &[u8]) -> bool
    ensures { result ≡ is_head text.now }
{
    front(text, 21) == FORM && front(behind(text, 53), 2) == COMMA
}

/// What the first text of a journal says. None if it is another text.
pub fn head_in(text: &[u8]) -> Option<Head<'_>>
    ensures none { result ≡ None → is_head text.now ≡ false }
    ensures some { IfSome result (λ head. (text.now ≡ head_of head.epoch.now head.more.now) × (length head.epoch.now ≡ 32)) }
{
    if is_head(text) {
        Some(Head {
            epoch: front(behind(text, 21), 32),
            more: behind(text, 55),
        })
    } else {
        None
    }
}
