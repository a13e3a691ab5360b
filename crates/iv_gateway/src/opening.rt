//! `Gateway::opens`: whether a token opens a role.
ghost use Rattle.std.specs.Prelude.{◌≡◌, false, is_some};
ghost use Rattle.sha2.specs.Sha256.{sha256};
ghost use Rattle.iv_clients.specs.Tokens.{role_opened};
ghost use Rattle.iv_gate.specs.Gate.{Gate};
ghost use Rattle.iv_gateway.specs.Views.{IsGate};

use crate::gateway::Gateway;
use iv_clients::role_opened;
use sha2::{Digest, Sha256};

impl Gateway {
    /// Whether a token opens a role, even if nobody comes in by it now: no session or number is free, or the role is not there.
    pub fn opens(&self, token: &[u8]) -> bool
        ensures { (g : Gate) → IsGate g self.now → g.dead ≡ false → result ≡ is_some (role_opened g.tokens (sha256 token.now)) }
    {
        let digest = Sha256::digest(token);
        role_opened(&self.tokens, &digest).is_some()
    }
}
