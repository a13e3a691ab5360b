//! `random_seed`: the random keys of the run's hashes.

ghost use Rattle.std.specs.Prelude.{◌≡◌, IfErr};

use crate::fault::Fault;
use iv_seed::Seed;

/// A seed of the run's own, which nobody who writes rows can know.
///
/// # Errors
/// `Random` if the system gives no random bytes.
pub fn random_seed(rt: &HostRuntime) -> Result<Seed, Fault>
    ensures { IfErr result (λ fault. fault ≡ Fault.Random) }
{
    match Seed::random(rt) {
        Ok(seed) => Ok(seed),
        Err(_) => Err(Fault::Random),
    }
}
