//! `is_same`: whether two texts are the same, by one pass over all bytes. What time it takes no contract says.
ghost use Rattle.std.specs.Prelude.{◌≡◌, length, bytes_eq};
ghost use Rattle.iv_jwt.specs.Same.{difference};

/// The bits in which two texts of one length differ somewhere. There is one way through, and it looks at each byte of both.
fn difference(a: &[u8], b: &[u8]) -> u8
    requires { length a.now ≡ length b.now }
    ensures { result ≡ difference 0 a.now b.now }
{
    let mut found = 0;
    for at in 0..a.len() {
        found = found | (a[at] ^ b[at]);
    }
    found
}

/// Whether two texts are the same. The code branches on their lengths alone.
pub fn is_same(a: &[u8], b: &[u8]) -> bool
    ensures { result ≡ bytes_eq a.now b.now }
{
    a.len() == b.len() && difference(a, b) == 0
}
