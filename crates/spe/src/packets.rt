// Tests of an SPE packet as a whole: whether it is an acknowledgement or a command, and with which code.
ghost use Rattle.std.specs.Prelude.{◌≡◌};
ghost use Rattle.rules.specs.Codes.{is_packet, is_ack, is_command};
ghost use Rattle.spe.specs.Packets.{ack_in, command_in};

use crate::codes::{is_ack_code, is_code};
use rules::{CODE_COUNT, COMMAND_MARK, PACKET_LENGTH, REPLY_MARK};

// Whether the bytes are three marks, the count 01 and a code twice. All tests are made, so that none has to be guessed.
fn is_packet(mark: u8, s: &[u8]) -> bool
    ensures { result ≡ is_packet mark s.now }
{
    if s.len() != PACKET_LENGTH {
        return false;
    }
    let c = s[4];
    (s[0] == mark) & (s[1] == mark) & (s[2] == mark) & (s[3] == CODE_COUNT) & (s[5] == c)
}

// Whether the bytes are an acknowledgement.
pub fn is_ack(s: &[u8]) -> bool
    ensures { result ≡ is_ack s.now }
{
    if s.len() != PACKET_LENGTH {
        return false;
    }
    is_packet(REPLY_MARK, s) & is_ack_code(s[4])
}

// Whether the bytes are a command.
pub fn is_command(s: &[u8]) -> bool
    ensures { result ≡ is_command s.now }
{
    if s.len() != PACKET_LENGTH {
        return false;
    }
    is_packet(COMMAND_MARK, s) & is_code(s[4])
}

// The code of an acknowledgement, or none where the bytes are no acknowledgement. It is asked for behind the test: the lister
// needs no code, and with an Option in place of the test it took nearly twice as long on commands.
#[tactic(auto, using(crate::proofs::PacketFrames::not_ack), unfolding(crate::specs::Packets::ack_in))]
pub fn ack_in(s: &[u8]) -> Option<u8>
    ensures { result ≡ ack_in s.now }
{
    let code = *s.get(4)?;
    is_ack(s).then_some(code)
}

// The code of a command, or none where the bytes are no command.
#[tactic(auto, using(crate::proofs::PacketFrames::not_command), unfolding(crate::specs::Packets::command_in))]
pub fn command_in(s: &[u8]) -> Option<u8>
    ensures { result ≡ command_in s.now }
{
    let code = *s.get(4)?;
    is_command(s).then_some(code)
}
