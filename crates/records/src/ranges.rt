// Whether a record holds only values that its fields can carry. The writers ask it of what they are
// given, and the readers of 02 and 03 of what they read.
ghost use Rattle.std.specs.Prelude.{◌≡◌};
ghost use Rattle.rules.specs.Sentences.{in_range02, in_range03, in_range05};

use rules::{Sentence02, Sentence03, Sentence05};

// How many digits the decimal fields of sentences 02 and 03 have at most. The writer uses all of them.
pub const WIDTHS02: [usize; 13] = [5, 3, 4, 4, 4, 3, 3, 3, 1, 1, 2, 1, 5];

pub const WIDTHS03: [usize; 8] = [3, 3, 3, 3, 3, 4, 3, 1];

// Each number fits its width; grid voltage is at most 255, band 1 to 9, key 0 or 1.
#[tactic(auto, unfolding(rules::specs::Sentences::in_range02, rules::specs::Sentences::numbers02, rules::specs::Sentences::fit))]
pub fn in_range02(r: Sentence02) -> bool
    ensures { result ≡ in_range02 r }
{
    (r.pfwd < 100000)
        & (r.swr < 1000)
        & (r.pin < 10000)
        & (r.vp < 10000)
        & (r.ip < 10000)
        & (r.gain < 1000)
        & (r.vg < 1000)
        & (r.ig < 1000)
        & (r.band < 10)
        & (r.state < 10)
        & (r.fault < 100)
        & (r.key < 10)
        & (r.pep < 100000)
        & (r.vg <= 255)
        & matches!(r.band, 1..=9)
        & (r.key <= 1)
}

// Each number fits its width; mains tap is 1 to 5, and the temperature has at most four digits.
#[tactic(auto, unfolding(rules::specs::Sentences::in_range03, rules::specs::Sentences::numbers03, rules::specs::Sentences::fit))]
pub fn in_range03(r: Sentence03) -> bool
    ensures { result ≡ in_range03 r }
{
    (r.v5 < 1000)
        & (r.v12 < 1000)
        & (r.v24 < 1000)
        & (r.m12 < 1000)
        & (r.v40 < 1000)
        & (r.acline < 10000)
        & (r.mbstatus < 1000)
        & (r.mbtap < 10)
        & matches!(r.mbtap, 1..=5)
        & matches!(r.temp, -9999..=9999)
}

// Each nibble is at most 15; the last three are whole bytes.
#[tactic(auto, unfolding(rules::specs::Sentences::in_range05))]
pub fn in_range05(r: Sentence05) -> bool
    ensures { result ≡ in_range05 r }
{
    (r.band <= 15)
        & (r.segment <= 15)
        & (r.memory <= 15)
        & (r.antenna <= 15)
        & (r.meter <= 15)
        & (r.control <= 15)
        & (r.options <= 15)
        & (r.state <= 15)
}
