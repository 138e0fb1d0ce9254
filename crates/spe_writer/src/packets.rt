// Writers of SPE packets, which are acknowledgements and commands. Each writes into the lent output's
// front, or refuses and leaves it as it was.
ghost use Rattle.std.specs.Prelude.{true};
ghost use Rattle.rules.specs.Answers.{Writes};
ghost use Rattle.rules.specs.Codes.{is_code, is_ack_code, packet, ack, command};

use rules::{CODE_COUNT, COMMAND_MARK, PACKET_LENGTH, REPLY_MARK, Refusal, Written};

// Three marks, the count, and the code twice, where this code is allowed.
fn write_packet(mark: u8, code: u8, allowed: bool, out: &mut [u8]) -> Written
    ensures { Writes allowed Refusal.NoCode (packet mark code) out.old result out.new }
{
    if !allowed {
        return Err(Refusal::NoCode);
    }
    if out.len() < PACKET_LENGTH {
        return Err(Refusal::NoRoom);
    }
    let bytes = [mark, mark, mark, CODE_COUNT, code, code];
    pens::put_bytes(out, 0, &bytes);
    Ok(PACKET_LENGTH)
}

// An acknowledgement: six bytes.
pub fn write_ack(code: u8, out: &mut [u8]) -> Written
    ensures { Writes (is_ack_code code) Refusal.NoCode (ack code) out.old result out.new }
{
    write_packet(REPLY_MARK, code, spe::is_ack_code(code), out)
}

// A command: six bytes.
pub fn write_command(code: u8, out: &mut [u8]) -> Written
    ensures { Writes (is_code code) Refusal.NoCode (command code) out.old result out.new }
{
    write_packet(COMMAND_MARK, code, spe::is_code(code), out)
}
