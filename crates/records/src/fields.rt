// A record's fields as numbers, in document 01's order: as they are written, laid as a row, and shown.
ghost use Rattle.std.specs.Prelude.{◌≡◌};
ghost use Rattle.rules.specs.Sentences.{numbers02, numbers03};
ghost use Rattle.rules.specs.Answers.{status_numbers, numbers05};

use rules::{STATUS_VALUES, Sentence02, Sentence03, Sentence05, Status};

// Those of a status report: its nineteen fields, of which the seventh is an antenna and a letter, and its form.
pub fn of_status(s: Status) -> [u32; STATUS_VALUES]
    ensures { result ≡ status_numbers s }
{
    [
        u32::from(s.id),
        u32::from(s.state),
        u32::from(s.direction),
        u32::from(s.bank),
        u32::from(s.input),
        u32::from(s.band),
        u32::from(s.transmit),
        u32::from(s.tuner),
        u32::from(s.receive),
        u32::from(s.level),
        s.watts,
        s.swratu,
        s.swrant,
        s.volts,
        s.amperes,
        s.upper,
        s.lower,
        s.combiner,
        u32::from(s.warning),
        u32::from(s.alarm),
        u32::from(s.comma),
    ]
}

// The thirteen of sentence 02.
#[tactic(auto, unfolding(rules::specs::Sentences::numbers02))]
pub fn of_02(r: Sentence02) -> [u32; 13]
    ensures { result ≡ numbers02 r }
{
    [
        r.pfwd, r.swr, r.pin, r.vp, r.ip, r.gain, r.vg, r.ig, r.band, r.state, r.fault, r.key,
        r.pep,
    ]
}

// The eight of sentence 03 before its temperature, which has a sign.
#[tactic(auto, unfolding(rules::specs::Sentences::numbers03))]
pub fn of_03(r: Sentence03) -> [u32; 8]
    ensures { result ≡ numbers03 r }
{
    [
        r.v5, r.v12, r.v24, r.m12, r.v40, r.acline, r.mbstatus, r.mbtap,
    ]
}

// The eleven of sentence 05.
pub fn of_05(r: Sentence05) -> [u32; 11]
    ensures { result ≡ numbers05 r }
{
    [
        u32::from(r.band),
        u32::from(r.segment),
        u32::from(r.memory),
        u32::from(r.antenna),
        u32::from(r.meter),
        u32::from(r.control),
        u32::from(r.options),
        u32::from(r.state),
        u32::from(r.wtime),
        u32::from(r.tcmd),
        u32::from(r.lcmd),
    ]
}
