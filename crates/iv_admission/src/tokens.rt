//! The file of tokens and the secret as the settings name them, and what is said if they are not usable.
use iv_clients::TokensFault;
use iv_host::{SecretFault, Settings, TokenFault, TokenFile, read_secret};
use iv_running::UNUSABLE;
use iv_tokens::Entry;

/// Says why a file of tokens is not taken.
fn say_tokens(rt: &HostRuntime, fault: &TokenFault) {
    let _ = match fault {
        TokenFault::System(error) => eprintln!(rt; "gateway: the tokens: {error}"),
        TokenFault::File(TokensFault::Memory) => eprintln!(rt;
            "gateway: the tokens: out of memory"
        ),
        TokenFault::File(TokensFault::Line(line)) => {
            eprintln!(rt; "gateway: the tokens: line {line} is no token")
        }
        TokenFault::File(TokensFault::Twice) => {
            eprintln!(rt; "gateway: the tokens: one stands twice: leave one line for each SHA-256")
        }
        TokenFault::File(TokensFault::Empty) => eprintln!(rt;
            "gateway: the tokens: there are none"
        ),
    };
}

/// Says why a secret is not usable. The status to exit with.
pub fn no_secret(rt: &HostRuntime, path: &str, fault: &SecretFault) -> u8 {
    let _ = match fault {
        SecretFault::System(error) => eprintln!(rt; "gateway: {path}: {error}"),
        SecretFault::Short => eprintln!(rt; "gateway: {path}: a secret has 32 bytes or more"),
    };
    UNUSABLE
}

/// Opens the file of tokens, which has these entries.
///
/// # Errors
/// The status to exit with, once it was said why the file is not taken.
pub fn open_tokens(rt: &HostRuntime, path: String) -> Result<(TokenFile, Vec<Entry>), u8> {
    match TokenFile::open(rt, path) {
        Ok(opened) => Ok(opened),
        Err(fault) => {
            say_tokens(rt, &fault);
            Err(UNUSABLE)
        }
    }
}

/// The entries of the file of tokens, if it has changed and is taken.
pub(crate) fn read_tokens(rt: &HostRuntime, file: &mut TokenFile) -> Option<Vec<Entry>> {
    match file.changed(rt) {
        Ok(None) => None,
        Ok(Some(entries)) => {
            if entries.is_empty() {
                say_tokens(rt, &TokenFault::File(TokensFault::Empty));
            }
            Some(entries)
        }
        Err(fault) => {
            say_tokens(rt, &fault);
            None
        }
    }
}

/// The secret that grants web tokens: none, if none is asked for.
pub(crate) fn secret_of(rt: &HostRuntime, settings: &Settings) -> Result<Vec<u8>, u8> {
    match &settings.jwt_secret {
        None => Ok(Vec::new(rt.alloc())),
        Some(path) => match read_secret(rt, path.as_str()) {
            Ok(secret) => Ok(secret),
            Err(fault) => Err(no_secret(rt, path.as_str(), &fault)),
        },
    }
}
