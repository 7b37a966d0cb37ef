ghost use Rattle.std.specs.Prelude.{◌≡◌, ◌+◌, ◌<◌, ◌≤◌, true, ◌∷◌, length, is_some};
ghost use Rattle.line_fields.specs.Cuts.{fields_of, fields_left};

const TAB: u8 = b'\t';

/// The first field, and what stands behind its tab, if it has one.
pub fn cut(line: &[u8]) -> (&[u8], Option<&[u8]>)
    ensures parts { fields_of line.now ≡ result.0.now ∷ fields_left result.1 }
    ensures some { is_some result.1 ≡ true → 0 < length (fields_left result.1) }
{
    match line.iter().position(|byte| *byte == TAB) {
        Some(end) => (&line[..end], Some(&line[end + 1..])),
        None => (line, None),
    }
}

/// How many fields stand behind the first: one for each tab.
pub fn behind_first(line: &[u8]) -> usize
    ensures count { 1 + result ≡ length (fields_of line.now) }
    ensures bound { result ≤ length line.now }
{
    line.iter().filter(|byte| **byte == TAB).count()
}
