//! `differing`: where two lists of flags, one for each circuit, differ: before a change of memberships and after it.
ghost use Rattle.std.specs.Prelude.{◌≡◌, IfOk, length};
ghost use Rattle.iv_readers.specs.Flags.{differing};

use std::alloc::{AllocError, Global};

/// Of each circuit, whether its flags in two lists differ: before a change and after it.
pub fn differing(alloc: Global, before: &[bool], after: &[bool]) -> Result<Vec<bool>, AllocError>
    requires { length before.now ≡ length after.now }
    ensures { IfOk result (λ flags. flags.items ≡ differing before.now after.now) }
{
    let mut flags = Vec::with_capacity(alloc, before.len())?;
    for (place, flag) in before.iter().enumerate() {
        flags.push(*flag != after[place])?;
    }
    Ok(flags)
}
