// Sentences 02, 03 and 05 as records, from the bytes behind the sentence's number.
ghost use Rattle.std.specs.Prelude.{◌≡◌};
ghost use Rattle.rules.specs.Sentences.{behind_commas};
ghost use Rattle.alpha.specs.Readings.{as02, as03, as05};

use crate::fields;
use records::{WIDTHS02, WIDTHS03};
use rules::{Frame, Reading, Refusal, Sentence02, Sentence03, Sentence05};

// Thirteen decimal fields, and nothing behind them.
pub(crate) fn read02(r: &[u8]) -> Reading
    ensures { result ≡ as02 (behind_commas r.now) }
{
    let mut n = [0; 13];
    let Some(rest) = fields::row(r, &WIDTHS02, &mut n, fields::decimal_in) else {
        return Err(Refusal::NotGood);
    };
    if !rest.is_empty() {
        return Err(Refusal::NotGood);
    }
    let record = Sentence02 {
        pfwd: n[0],
        swr: n[1],
        pin: n[2],
        vp: n[3],
        ip: n[4],
        gain: n[5],
        vg: n[6],
        ig: n[7],
        band: n[8],
        state: n[9],
        fault: n[10],
        key: n[11],
        pep: n[12],
    };
    if !records::in_range02(record) {
        return Err(Refusal::NotGood);
    }
    Ok(Frame::Apa02(record))
}

// Eight decimal fields, a temperature, and nothing behind it.
pub(crate) fn read03(r: &[u8]) -> Reading
    ensures { result ≡ as03 (behind_commas r.now) }
{
    let mut n = [0; 8];
    let Some(rest) = fields::row(r, &WIDTHS03, &mut n, fields::decimal_in) else {
        return Err(Refusal::NotGood);
    };
    let Some((last, temp)) = fields::degrees(rest) else {
        return Err(Refusal::NotGood);
    };
    if !last.is_empty() {
        return Err(Refusal::NotGood);
    }
    let record = Sentence03 {
        v5: n[0],
        v12: n[1],
        v24: n[2],
        m12: n[3],
        v40: n[4],
        acline: n[5],
        mbstatus: n[6],
        mbtap: n[7],
        temp,
    };
    if !records::in_range03(record) {
        return Err(Refusal::NotGood);
    }
    Ok(Frame::Apa03(record))
}

// Seven fields of two hexadecimal digits, and nothing behind them. The first four hold a number in
// each nibble.
pub(crate) fn read05(r: &[u8]) -> Reading
    ensures { result ≡ as05 (behind_commas r.now) }
{
    let mut b = [0; 7];
    let Some(rest) = fields::row(r, &[2; 7], &mut b, |text, _width| fields::hex_in(text)) else {
        return Err(Refusal::NotGood);
    };
    if !rest.is_empty() {
        return Err(Refusal::NotGood);
    }
    Ok(Frame::Apa05(Sentence05 {
        band: b[0] >> 4,
        segment: b[0] & 15,
        memory: b[1] >> 4,
        antenna: b[1] & 15,
        meter: b[2] >> 4,
        control: b[2] & 15,
        options: b[3] >> 4,
        state: b[3] & 15,
        wtime: b[4],
        tcmd: b[5],
        lcmd: b[6],
    }))
}
