//! Laws of what is believed. Each is the contract of a function that does nothing.
ghost use Rattle.std.specs.Prelude.{◌≡◌};
ghost use Rattle.iv_jwt.specs.Hmac.{hmac};
ghost use Rattle.iv_jwt.specs.Tokens.{JudgedIsGranted, base64url};
ghost use Rattle.iv_jwt.specs.Worked.{example_key, example_signature, example_signed, short_key, short_mac, short_message};

/// What is granted is what a token says that the secret signs, byte for byte.
pub fn judged_is_granted()
    ensures { JudgedIsGranted }
{}

/// Examples of RFC 4231 and RFC 7515 are signed as they have it.
pub fn examples_are_signed()
    ensures short { hmac short_key short_message ≡ short_mac }
    ensures token { base64url (hmac example_key example_signed) ≡ example_signature }
{}
