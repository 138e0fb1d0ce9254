// Reads one frame of an SPE amplifier: a reply of family 1, or a command of family 3. A frame is tested
// as a whole, and only what a good one says is read; of a report also as numbers.
#![tactic(auto)]

mod codes;
mod ends;
mod packets;
mod status;

ghost use Rattle.std.specs.Prelude.{◌≡◌, true, ◌++◌, ◌+◌, ◌≤◌, length};
ghost use Rattle.rules.specs.Bytes.{part};
ghost use Rattle.rules.specs.Status.{data_length, readable, status_of};
ghost use Rattle.rules.specs.Answers.{replies, commands, Reads};
ghost use Rattle.spe.specs.Report.{weighed, numbers_in, report_in};

pub use codes::{is_ack_code, is_code};
pub use ends::{begins_report, comma_in, ends_report, report_length};
pub use packets::{ack_in, command_in, is_ack, is_command};
use records::of_status;
use rules::{DATA_LENGTH, Frame, Reading, Refusal, STATUS_VALUES, Status};
pub use status::is_status;
use texts::text;

// The number in two bytes of a good report: a digit counts as itself, a space before it as nothing.
#[tactic(auto, unfolding(crate::specs::Report::weighed))]
fn two_at(d: &[u8], a: usize) -> u8
    requires { a + 2 ≤ length d.now }
    ensures { result ≡ weighed 0 (part a 2 d.now) }
{
    d[a] % 16 * 10 + d[a + 1] % 16
}

// The number in two bytes, and one at another place.
#[tactic(auto, using(crate::proofs::Weighed::weighed_append, crate::proofs::Weighed::one_behind))]
fn three_at(d: &[u8], a: usize, b: usize) -> u32
    requires { (a + 2 ≤ length d.now) × (b + 1 ≤ length d.now) }
    ensures { result ≡ weighed 0 (part a 2 d.now ++ part b 1 d.now) }
{
    u32::from(two_at(d, a)) * 10 + u32::from(d[b] % 16)
}

// The number in two bytes, and two at another place.
#[tactic(auto, using(crate::proofs::Weighed::weighed_append, crate::proofs::Weighed::two_behind))]
fn four_at(d: &[u8], a: usize, b: usize) -> u32
    requires { (a + 2 ≤ length d.now) × (b + 2 ≤ length d.now) }
    ensures { result ≡ weighed 0 (part a 2 d.now ++ part b 2 d.now) }
{
    u32::from(two_at(d, a)) * 100 + u32::from(two_at(d, b))
}

// The values of a report's data that can be read, by the places where the widths put its fields, and its form. It is
// inlined: numbers are made of the record in `read_numbers`, and one that lies in memory before takes a third longer.
#[inline(always)]
fn read_values(d: &[u8], comma: u8) -> Status
    requires { (length d.now ≡ data_length) × (readable d.now ≡ true) }
    ensures { result ≡ status_of comma d.now }
{
    Status {
        id: two_at(d, 1),
        state: d[5],
        direction: d[7],
        bank: d[9],
        input: d[11] % 16,
        band: two_at(d, 13),
        transmit: d[16] % 16,
        tuner: d[17],
        receive: d[19] % 16,
        level: d[22],
        watts: four_at(d, 24, 26),
        swratu: four_at(d, 29, 32),
        swrant: four_at(d, 35, 38),
        volts: three_at(d, 41, 44),
        amperes: three_at(d, 46, 49),
        upper: three_at(d, 51, 53),
        lower: three_at(d, 55, 57),
        combiner: three_at(d, 59, 61),
        warning: d[63],
        alarm: d[65],
        comma,
    }
}

// The record of a status report, or none where the bytes are no report.
#[tactic(auto, using(crate::proofs::Values::status_told), unfolding(crate::specs::Report::report_in))]
#[inline(always)]
fn report_in(s: &[u8]) -> Option<Status>
    ensures { result ≡ report_in s.now }
{
    if !is_status(s) {
        return None;
    }
    let status = read_values(text(s, 4, DATA_LENGTH), comma_in(s));
    Some(status)
}

// Its values as numbers, or none.
#[tactic(auto, using(crate::proofs::Found::found, crate::proofs::Found::not_found), unfolding(crate::specs::Report::report_in, crate::specs::Report::numbers_in))]
pub fn read_numbers(s: &[u8]) -> Option<[u32; STATUS_VALUES]>
    ensures { result ≡ numbers_in s.now }
{
    let status = report_in(s)?;
    Some(of_status(status))
}

// A frame of family 1, from the amplifier: an acknowledgement, or a report; or refusal 8.
pub fn read_reply(s: &[u8]) -> Reading
    ensures { Reads replies s.now result }
{
    match ack_in(s) {
        Some(code) => Ok(Frame::Ack(code)),
        None => match report_in(s) {
            Some(status) => Ok(Frame::Status(status)),
            None => Err(Refusal::NotGood),
        },
    }
}

// A frame of family 3, to the amplifier: a command, or refusal 8.
pub fn read_command(s: &[u8]) -> Reading
    ensures { Reads commands s.now result }
{
    let code = command_in(s).ok_or(Refusal::NotGood)?;
    Ok(Frame::Command(code))
}
