// The two ends of a report, for whoever asks before the whole is tested: nearly all bytes that are no report are
// turned away by one of them. And its form and its length, which the byte behind the checksum tells.
ghost use Rattle.std.specs.Prelude.{◌≡◌};
ghost use Rattle.rules.specs.Status.{comma_in, report_length_in};
ghost use Rattle.spe.specs.Ends.{begins_report, ends_report};

use rules::{BEHIND_CHECKSUM, REPLY_MARK, REPORT_COUNT, REPORT_LENGTH};

// Where the second byte of its line end stands, if no comma stands before the first.
const BEHIND_RETURN: usize = BEHIND_CHECKSUM + 1;

// Whether a report begins at the first byte: three marks of family 1, and the count 43.
pub fn begins_report(s: &[u8]) -> bool
    ensures { result ≡ begins_report s.now }
{
    let [first, second, third, count, ..] = *s else {
        return false;
    };
    (first == REPLY_MARK) & (second == REPLY_MARK) & (third == REPLY_MARK) & (count == REPORT_COUNT)
}

// 1 where a comma stands behind the checksum of a report that starts at the first byte, else 0. A number and no bool, as it
// is the last value of a record (`Status::comma`).
#[tactic(auto, unfolding(rules::specs::Status::comma_in))]
pub fn comma_in(s: &[u8]) -> u8
    ensures { result ≡ comma_in s.now }
{
    u8::from(s.len() > BEHIND_CHECKSUM && s[BEHIND_CHECKSUM] == b',')
}

// How many bytes such a report has.
pub fn report_length(s: &[u8]) -> usize
    ensures { result ≡ report_length_in s.now }
{
    REPORT_LENGTH + usize::from(comma_in(s))
}

// Whether 0D 0A stand where such a report ends.
pub fn ends_report(s: &[u8]) -> bool
    ensures { result ≡ ends_report s.now }
{
    let comma = usize::from(comma_in(s));
    if s.len() < REPORT_LENGTH + comma {
        return false;
    }
    (s[BEHIND_CHECKSUM + comma] == b'\r') & (s[BEHIND_RETURN + comma] == b'\n')
}
