//! `has_texts`: whether a policy has the texts that the rules on shape ask for; that a command's texts are UTF-8; the last number of a subscription.
ghost use Rattle.std.specs.Prelude.{◌≡◌, option_map, string_bytes};
ghost use Rattle.iv_machine.specs.Act.{create_policy};
ghost use Rattle.iv_machine.specs.Parts.{has_texts};
ghost use Rattle.iv_machine.specs.Stored.{HasTexts};
ghost use Rattle.iv_command.specs.Views.{command_of};

use crate::command::{Act, Command, PolicyText};
use iv_access::PolicyCommand;

/// The last number of a subscription.
pub const LAST_NUMBER: u64 = 9_223_372_036_854_775_807;

/// Whether a policy has the texts that the rules on shape ask for its command, and no other.
///
/// Source: PostgreSQL 16, CREATE POLICY: USING and WITH CHECK.
pub fn has_texts(
    command: PolicyCommand,
    using_text: &Option<String>,
    check_text: &Option<String>,
) -> bool
    ensures { result ≡ has_texts command (option_map string_bytes using_text.now) (option_map string_bytes check_text.now) }
{
    match command {
        PolicyCommand::All => using_text.is_some(),
        PolicyCommand::Select => using_text.is_some() && check_text.is_none(),
        PolicyCommand::Insert => using_text.is_none() && check_text.is_some(),
        PolicyCommand::Update => using_text.is_some(),
        PolicyCommand::Delete => using_text.is_some() && check_text.is_none(),
    }
}

impl Command {
    /// Its texts are in UTF-8, as each `String` is. There is nothing to do.
    pub fn texts(&self)
        ensures { HasTexts (command_of self.now).act }
    {
        if let Act::CreatePolicy(policy) = &self.act {
            policy_texts(policy);
        }
    }
}

/// The texts of a policy are in UTF-8.
fn policy_texts(policy: &PolicyText)
    ensures { HasTexts (create_policy policy.now) }
{
    let _using = &policy.using_text;
}
