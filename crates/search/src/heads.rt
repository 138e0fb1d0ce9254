// What is known of a start before a frame is read there: a bad start with the number of bytes that settled
// it, an undecided one, or as many bytes as a frame there has. The frame is read by whoever wants it.
ghost use Rattle.std.specs.Prelude.{◌≡◌, true, false};
ghost use Rattle.stream_rules.specs.Heads.{is_spe, brackets_of};
ghost use Rattle.search.specs.Seen.{seen};

use starts::{bytes_needed, inner_bytes, mark_of};
use stream_rules::Brackets;

#[derive(Clone, Copy)]
pub(crate) enum Seen {
    // so many bytes, which the reader of one frame decides as a whole
    Whole(usize),
    // a bad start: how many bytes settled that
    Bad(usize),
    Undecided,
}

// A start of an SPE family.
pub(crate) fn examine_packet(family: u8, s: &[u8]) -> Seen
    requires { is_spe family ≡ true }
    ensures { result ≡ seen family s.now }
{
    let mark = mark_of(family);
    if s.len() == 0 {
        return Seen::Undecided;
    }
    if s[0] != mark {
        return Seen::Bad(1);
    }
    if s.len() == 1 {
        return Seen::Undecided;
    }
    if s[1] != mark {
        return Seen::Bad(2);
    }
    if s.len() == 2 {
        return Seen::Undecided;
    }
    if s[2] != mark {
        return Seen::Bad(3);
    }
    if s.len() == 3 {
        return Seen::Undecided;
    }
    let Some(n) = bytes_needed(family, s) else {
        return Seen::Bad(4);
    };
    if s.len() < n {
        return Seen::Undecided;
    }
    Seen::Whole(n)
}

// A start between brackets, those of its family.
pub(crate) fn examine_bracketed(family: u8, k: Brackets, s: &[u8]) -> Seen
    requires { (is_spe family ≡ false) × (k ≡ brackets_of family) }
    ensures { result ≡ seen family s.now }
{
    if s.len() == 0 {
        return Seen::Undecided;
    }
    if s[0] != k.opening {
        return Seen::Bad(1);
    }
    let n = inner_bytes(k, &s[1..]);
    if k.most < n {
        return Seen::Bad(k.most + 2);
    }
    if s.len() <= n + 1 {
        return Seen::Undecided;
    }
    if s[n + 1] != k.closing {
        return Seen::Bad(n + 2);
    }
    let whole = n + 2 + k.tail;
    if s.len() < whole {
        return Seen::Undecided;
    }
    Seen::Whole(whole)
}
