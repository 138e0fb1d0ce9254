// Whether a status report can hold the values of a record. The writer asks it of what it is given.
ghost use Rattle.std.specs.Prelude.{◌≡◌};
ghost use Rattle.rules.specs.Bytes.{ascii, one_of};
ghost use Rattle.rules.specs.Status.{by, fields_in_range, status_in_range};

use rules::Status;
use texts::one_of;

// The limit that a 20K keeps, or the one that a 13K keeps.
fn by_id(id: u8, big: u32, small: u32) -> u32
    ensures { result ≡ by id big small }
{
    if id == 20 { big } else { small }
}

// Whether the bank is x for a 20K, A or B for a 13K.
fn bank_allowed(id: u8, bank: u8) -> bool
    ensures { result ≡ one_of (by id (ascii "x") (ascii "AB")) bank }
{
    let banks: &[u8] = if id == 20 { b"x" } else { b"AB" };
    one_of(banks, bank)
}

// Whether the fields of a report can hold these values.
fn fields_in_range(s: Status) -> bool
    ensures { result ≡ fields_in_range s }
{
    one_of(b"\x14\x0D", s.id)
        & one_of(b"SO", s.state)
        & one_of(b"RT", s.direction)
        & bank_allowed(s.id, s.bank)
        & ((1 <= s.input) & (s.input <= 2))
        & (u32::from(s.band) <= by_id(s.id, 10, 11))
        & (u32::from(s.transmit) <= by_id(s.id, 6, 4))
        & one_of(b"tba", s.tuner)
        & (u32::from(s.receive) <= by_id(s.id, 6, 4))
        & one_of(b"LMH", s.level)
        & (s.watts <= 9999)
        & (s.swratu <= 9999)
        & (s.swrant <= 9999)
        & (s.volts <= 999)
        & (s.amperes <= 999)
        & (s.upper <= 999)
        & (s.lower <= by_id(s.id, 999, 0))
        & (s.combiner <= by_id(s.id, 999, 0))
        & one_of(b"MASBPOYWKRTCN", s.warning)
        & one_of(b"SADHCN", s.alarm)
}

// Whether a report can hold them, in one of its two forms.
#[tactic(auto, unfolding(rules::specs::Status::status_in_range))]
pub(crate) fn status_in_range(s: Status) -> bool
    ensures { result ≡ status_in_range s }
{
    fields_in_range(s) & (s.comma <= 1)
}
