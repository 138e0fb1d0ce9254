// The numbers of the families.
ghost use Rattle.std.specs.Prelude.{◌≡◌};
ghost use Rattle.rules.specs.Answers.{is_family};
ghost use Rattle.stream_rules.specs.Heads.{is_spe};

use rules::{COMMANDS, MESSAGES, REPLIES, SENTENCES};

// Whether the number is that of a family of SPE packets.
pub fn is_spe(family: u8) -> bool
    ensures { result ≡ is_spe family }
{
    matches!(family, REPLIES | COMMANDS)
}

// Whether the number is that of a family.
#[tactic(auto, unfolding(rules::specs::Bytes::one_of))]
pub fn is_family(family: u8) -> bool
    ensures { result ≡ is_family family }
{
    matches!(family, REPLIES | SENTENCES | COMMANDS | MESSAGES)
}
