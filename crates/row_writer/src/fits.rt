// Values as a caller gives them: whether a field of a record can hold them, and the number that it
// then holds. A value that does not fit, or is not there, is 0.
ghost use Rattle.std.specs.Prelude.{◌≡◌};
ghost use Rattle.rules.specs.Bytes.{every};
ghost use Rattle.row_writer.specs.Given.{at_most, a_temperature, byte_of, word_of, temperature_of, value_at};

// The largest number in a byte, and in 32 bits.
pub(crate) const BYTE: u32 = u8::MAX as u32;

pub(crate) const WORD: u32 = u32::MAX;

// Whether each of the values is from 0 to the limit.
pub(crate) fn fit(values: &[i64], limit: u32) -> bool
    ensures { result ≡ every (at_most limit) values.now }
{
    values.iter().all(|v| (0..=i64::from(limit)).contains(v))
}

pub(crate) fn value_at(values: &[i64], i: usize) -> i64
    ensures { result ≡ value_at values.now i }
{
    values.get(i).map_or(0, |v| *v)
}

pub(crate) fn byte_at(values: &[i64], i: usize) -> u8
    ensures { result ≡ byte_of (value_at values.now i) }
{
    u8::try_from(value_at(values, i)).unwrap_or(0)
}

pub(crate) fn word_at(values: &[i64], i: usize) -> u32
    ensures { result ≡ word_of (value_at values.now i) }
{
    u32::try_from(value_at(values, i)).unwrap_or(0)
}

// Whether 32 bits hold the value with its sign.
pub(crate) fn fits_signed(v: i64) -> bool
    ensures { result ≡ a_temperature v }
{
    i32::try_from(v).is_ok()
}

pub(crate) fn temperature_at(values: &[i64], i: usize) -> i32
    ensures { result ≡ temperature_of (value_at values.now i) }
{
    i32::try_from(value_at(values, i)).unwrap_or(0)
}
