// Rows of values as records: whether a row fits the fields of a record, and the record.
ghost use Rattle.std.specs.Prelude.{◌≡◌};
ghost use Rattle.row_writer.specs.Given.{is_status_row, is_row_of, is_row03, status_from, from02, from03, from05, clock_from};

use crate::fits::{BYTE, WORD, byte_at, fit, fits_signed, temperature_at, value_at, word_at};
use rules::{Clock, STATUS_VALUES, Sentence02, Sentence03, Sentence05, Status};

// Ten bytes, eight words, three bytes.
#[tactic(auto, unfolding(crate::specs::Given::is_status_row))]
pub(crate) fn is_status_row(values: &[i64]) -> bool
    ensures { result ≡ is_status_row values.now }
{
    STATUS_VALUES <= values.len()
        && fit(&values[..10], BYTE)
        && fit(&values[10..18], WORD)
        && fit(&values[18..STATUS_VALUES], BYTE)
}

// The same for a record of so many numbers, each up to the same limit.
#[tactic(auto, unfolding(crate::specs::Given::is_row_of))]
pub(crate) fn is_row(values: &[i64], count: usize, limit: u32) -> bool
    ensures { result ≡ is_row_of count limit values.now }
{
    count <= values.len() && fit(&values[..count], limit)
}

#[tactic(auto, unfolding(crate::specs::Given::is_row03))]
pub(crate) fn is_row03(values: &[i64]) -> bool
    ensures { result ≡ is_row03 values.now }
{
    9 <= values.len() && fit(&values[..8], WORD) && fits_signed(values[8])
}

#[tactic(auto, unfolding(crate::specs::Given::clock_from))]
pub(crate) fn clock_from(values: &[i64]) -> Clock
    ensures { result ≡ clock_from values.now }
{
    Clock {
        year: byte_at(values, 0),
        month: byte_at(values, 1),
        day: byte_at(values, 2),
        hour: byte_at(values, 3),
        minute: byte_at(values, 4),
        second: byte_at(values, 5),
    }
}

#[tactic(auto, unfolding(crate::specs::Given::status_from))]
pub(crate) fn status_from(values: &[i64]) -> Status
    ensures { result ≡ status_from values.now }
{
    Status {
        id: byte_at(values, 0),
        state: byte_at(values, 1),
        direction: byte_at(values, 2),
        bank: byte_at(values, 3),
        input: byte_at(values, 4),
        band: byte_at(values, 5),
        transmit: byte_at(values, 6),
        tuner: byte_at(values, 7),
        receive: byte_at(values, 8),
        level: byte_at(values, 9),
        watts: word_at(values, 10),
        swratu: word_at(values, 11),
        swrant: word_at(values, 12),
        volts: word_at(values, 13),
        amperes: word_at(values, 14),
        upper: word_at(values, 15),
        lower: word_at(values, 16),
        combiner: word_at(values, 17),
        warning: byte_at(values, 18),
        alarm: byte_at(values, 19),
        comma: byte_at(values, 20),
    }
}

#[tactic(auto, unfolding(crate::specs::Given::from02))]
pub(crate) fn from02(values: &[i64]) -> Sentence02
    ensures { result ≡ from02 values.now }
{
    Sentence02 {
        pfwd: word_at(values, 0),
        swr: word_at(values, 1),
        pin: word_at(values, 2),
        vp: word_at(values, 3),
        ip: word_at(values, 4),
        gain: word_at(values, 5),
        vg: word_at(values, 6),
        ig: word_at(values, 7),
        band: word_at(values, 8),
        state: word_at(values, 9),
        fault: word_at(values, 10),
        key: word_at(values, 11),
        pep: word_at(values, 12),
    }
}

#[tactic(auto, unfolding(crate::specs::Given::from03))]
pub(crate) fn from03(values: &[i64]) -> Sentence03
    ensures { result ≡ from03 values.now }
{
    Sentence03 {
        v5: word_at(values, 0),
        v12: word_at(values, 1),
        v24: word_at(values, 2),
        m12: word_at(values, 3),
        v40: word_at(values, 4),
        acline: word_at(values, 5),
        mbstatus: word_at(values, 6),
        mbtap: word_at(values, 7),
        temp: temperature_at(values, 8),
    }
}

#[tactic(auto, unfolding(crate::specs::Given::from05))]
pub(crate) fn from05(values: &[i64]) -> Sentence05
    ensures { result ≡ from05 values.now }
{
    Sentence05 {
        band: byte_at(values, 0),
        segment: byte_at(values, 1),
        memory: byte_at(values, 2),
        antenna: byte_at(values, 3),
        meter: byte_at(values, 4),
        control: byte_at(values, 5),
        options: byte_at(values, 6),
        state: byte_at(values, 7),
        wtime: byte_at(values, 8),
        tcmd: byte_at(values, 9),
        lcmd: byte_at(values, 10),
    }
}
