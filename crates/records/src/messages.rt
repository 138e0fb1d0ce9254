// The records of messages: what may stand behind listed letters, the ranges of a date and a time, and their fields as numbers.
ghost use Rattle.std.specs.Prelude.{◌≡◌};
ghost use Rattle.rules.specs.Messages.{behind, days_in, clock_in_range, clock_numbers, letter_words};

use rules::{
    Behind, CC, Clock, FQ, FR, FS, FT, HS, LETTER_WORDS, Letters, PWD, PWF, PWI, PWR, RV, SN,
};

// What may stand behind letters, which are one number.
#[tactic(auto, unfolding(rules::specs::Messages::behind, rules::specs::Bytes::one_of, rules::specs::Messages::word_from))]
pub fn behind_letters(letters: u32) -> Behind
    ensures { result ≡ behind letters }
{
    match letters {
        PWF | PWI | PWR | PWD => Behind::ANumber(4, 9999),
        SN | FR | FQ => Behind::ANumber(5, 99999),
        FS => Behind::ANumber(1, 5),
        HS => Behind::ANumber(1, 1),
        RV => Behind::AVersion,
        CC => Behind::AClock,
        FT => Behind::Alone,
        _ => Behind::Anything,
    }
}

// How many days a month has. From 2000 to 2099 every fourth year is a leap year.
#[tactic(auto, unfolding(rules::specs::Messages::days_in, rules::specs::Bytes::one_of))]
fn days_in(year: u8, month: u8) -> u8
    ensures { result ≡ days_in year month }
{
    match month {
        2 => { if year % 4 == 0 { 29 } else { 28 } }
        4 | 6 | 9 | 11 => 30,
        _ => 31,
    }
}

// Whether it is a real date of these years, and a time of a day.
#[tactic(auto, unfolding(rules::specs::Messages::clock_in_range))]
pub fn clock_in_range(c: Clock) -> bool
    ensures { result ≡ clock_in_range c }
{
    (c.year <= 99)
        & matches!(c.month, 1..=12)
        & ((1 <= c.day) & (c.day <= days_in(c.year, c.month)))
        & (c.hour <= 23)
        & (c.minute <= 59)
        & (c.second <= 59)
}

// The six numbers of a date and a time.
pub fn of_clock(c: Clock) -> [u32; 6]
    ensures { result ≡ clock_numbers c }
{
    [
        u32::from(c.year),
        u32::from(c.month),
        u32::from(c.day),
        u32::from(c.hour),
        u32::from(c.minute),
        u32::from(c.second),
    ]
}

// The ten that hold letters.
pub fn of_letters(w: Letters) -> [u32; LETTER_WORDS]
    ensures { result ≡ letter_words w }
{
    [
        w.first, w.second, w.third, w.fourth, w.fifth, w.sixth, w.seventh, w.eighth, w.ninth,
        w.tenth,
    ]
}
