// The test of a status report as a whole, which reads no field: its frame, then its data.
ghost use Rattle.std.specs.Prelude.{◌≡◌, length};
ghost use Rattle.rules.specs.Bytes.{one_of, same};
ghost use Rattle.rules.specs.Status.{data_length, comma_in, status_frame, data_of, is_status, warnings, alarms};
ghost use Rattle.spe.specs.ReportTests.{all_follow, letters_good, limits_good, data_good};

use crate::ends::{begins_report, ends_report, report_length};
use rules::DATA_LENGTH;
use texts::{one_of, sum, text, within};

// Whether the bytes are a report's frame around their own data: marks, count, sums, 0D 0A with a comma before it or without.
fn is_report(s: &[u8]) -> bool
    ensures { result ≡ same s.now (status_frame (comma_in s.now) (data_of s.now)) }
{
    if s.len() != report_length(s) {
        return false;
    }
    if !begins_report(s) {
        return false;
    }
    if !ends_report(s) {
        return false;
    }
    let sum = sum(text(s, 4, DATA_LENGTH));
    (u32::from(s[71]) == sum % 256) & (u32::from(s[72]) == sum / 256)
}

// Whether the padded numbers have their spaces in front: the byte behind a marked place may follow the one at it.
// The loop over all places becomes vector code: a test for each of the thirteen that are marked took twice as long.
fn spaces(marks: &[u8], d: &[u8]) -> bool
    requires { (length marks.now ≡ data_length) × (length d.now ≡ data_length) }
    ensures { result ≡ all_follow marks.now d.now }
{
    let mut good = true;
    for i in 0..DATA_LENGTH - 1 {
        let follows = (d[i] == b' ') | ((b'0' <= d[i]) & (b'0' <= d[i + 1]));
        good &= (marks[i] != b'>') | follows;
    }
    good
}

// Whether each letter but the bank's is one of its field's.
fn letters(d: &[u8]) -> bool
    requires { length d.now ≡ data_length }
    ensures { result ≡ letters_good d.now }
{
    one_of(b"SO", d[5])
        & one_of(b"RT", d[7])
        & one_of(b"tba", d[17])
        & one_of(b"LMH", d[22])
        & one_of(b"MASBPOYWKRTCN", d[63])
        & one_of(b"SADHCN", d[65])
}

// Whether the fields keep the limits of their ID, which is 20K or 13K.
fn limits(d: &[u8]) -> bool
    requires { length d.now ≡ data_length }
    ensures { result ≡ limits_good d.now }
{
    if d[1] == b'2' {
        return (d[2] == b'0') & (d[9] == b'x') & ((d[13] == b'0') | (d[14] <= b'0'));
    }
    (d[2] == b'3')
        & one_of(b"AB", d[9])
        & ((d[13] == b'0') | (d[14] <= b'1'))
        & (d[16] <= b'4')
        & (d[19] <= b'4')
        & (d[55] <= b'0')
        & (d[56] <= b'0')
        & (d[57] <= b'0')
        & (d[59] <= b'0')
        & (d[60] <= b'0')
        & (d[61] <= b'0')
}

// Whether a report's data keeps the rules of its fields. What it is held to is laid out only here, when
// the frame around it is good.
fn is_data(d: &[u8]) -> bool
    requires { length d.now ≡ data_length }
    ensures { result ≡ data_good d.now }
{
    let least = b",10K,O,R,A,1,00,0a,0r,H,   0, 0.00, 0.00, 0.0, 0.0,  0,  0,  0,A,A,";
    let most = b",23K,S,T,x,2,19,6t,6r,M,9999,99.99,99.99,99.9,99.9,999,999,999,Y,S,";
    let marks = b"........................>>>..>.....>.....>....>....>>..>>..>>......";
    if !within(least, most, d) {
        return false;
    }
    letters(d) & spaces(marks, d) & limits(d)
}

// Whether the bytes are, as a whole, a good status report.
pub fn is_status(s: &[u8]) -> bool
    ensures { result ≡ is_status s.now }
{
    if !is_report(s) {
        return false;
    }
    is_data(text(s, 4, DATA_LENGTH))
}
