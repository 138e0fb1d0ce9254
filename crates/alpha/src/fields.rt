// The fields of a sentence, each behind its comma: decimal numbers, pairs of hexadecimal digits, and
// a temperature. What reads fields gives their values and the bytes behind them.
ghost use Rattle.std.specs.Prelude.{◌≡◌, ℕ, [], ◌∷◌, Option, None, length, MatchOption};
ghost use Rattle.rules.specs.Sentences.{behind_commas};
ghost use Rattle.alpha.specs.Fields.{Text, first_in, First, row_in, Row, decimal_in, hex_in, degrees_in};

// The text of the field whose comma stands in front, and the bytes behind it.
fn first_text(r: &[u8]) -> Option<(&[u8], &[u8])>
    ensures { MatchOption result (behind_commas r.now ≡ []) (λ p. behind_commas r.now ≡ p.0.now ∷ behind_commas p.1.now) }
{
    let (_comma, behind) = r.split_first()?;
    Some(behind.split_at(texts::to_comma(behind, 0)))
}

// Reads a row of fields, one for each width, and gives the bytes behind them.
pub(crate) fn row<'a, T: Copy, F: Fn(&[u8], usize) -> Option<T>>(
    r: &'a [u8],
    widths: &[usize],
    values: &mut [T],
    read: F,
) -> Option<&'a [u8]>
    ghost reads: { ℕ → Text → Option T }
    requires callable { F.IsAlwaysCallable read }
    requires room { length values.old ≡ length widths.now }
    requires told { (t : _) (w : _) (o : _) → F.post read t w o → o ≡ reads w t.now }
    ensures { MatchOption result (row_in reads widths.now (behind_commas r.now) ≡ None) (λ rest. Row reads widths.now (behind_commas r.now) values.new rest.now) }
{
    let mut rest = r;
    for (k, width) in widths.iter().enumerate() {
        let (text, behind) = first_text(rest)?;
        values[k] = read(text, *width)?;
        rest = behind;
    }
    Some(rest)
}

// A field with a temperature: the bytes behind it, and its tenths.
pub(crate) fn degrees(r: &[u8]) -> Option<(&[u8], i32)>
    ensures { MatchOption result (first_in degrees_in (behind_commas r.now) ≡ None) (λ p. First degrees_in (behind_commas r.now) p.1 p.0.now) }
{
    let (text, rest) = first_text(r)?;
    let tenths = degrees_in(text)?;
    Some((rest, tenths))
}

// A decimal number of at most so many digits.
pub(crate) fn decimal_in(text: &[u8], width: usize) -> Option<u32>
    ensures { result ≡ decimal_in width text.now }
{
    if width < text.len() {
        return None;
    }
    texts::digits(text)
}

// The byte that two hexadecimal digits give.
pub(crate) fn hex_in(text: &[u8]) -> Option<u8>
    ensures { result ≡ hex_in text.now }
{
    let [upper, lower] = text else {
        return None;
    };
    checksums::hex_pair(*upper, *lower)
}

// The tenths of a temperature: of a sign, 1 to 3 digits, a point and one digit.
fn degrees_in(t: &[u8]) -> Option<i32>
    ensures { result ≡ degrees_in t.now }
{
    let n = t.len();
    if n < 4 || 6 < n {
        return None;
    }
    if !texts::one_of(b"+-", t[0]) || t[n - 2] != b'.' {
        return None;
    }
    let whole = texts::digits(&t[1..n - 2])?;
    let tenth = texts::digits(&t[n - 1..])?;
    let tenths = (whole * 10 + tenth) as i32;
    Some(if t[0] == b'-' { -tenths } else { tenths })
}
