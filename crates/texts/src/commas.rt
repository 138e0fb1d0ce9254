// Where a field of a sentence ends: at the next comma, or at the end of the bytes.
ghost use Rattle.std.specs.Prelude.{◌≡◌, ◌+◌, drop};
ghost use Rattle.texts.specs.Commas.{to_comma};

// The place of the first comma from place a on, or the end.
pub fn to_comma(s: &[u8], a: usize) -> usize
    ensures { result ≡ a + to_comma (drop a s.now) }
{
    let rest = &s[a.min(s.len())..];
    a + rest.iter().position(|b| *b == b',').unwrap_or(rest.len())
}
