// Cutting bytes at a separator.
ghost use Rattle.std.specs.Prelude.{◌≡◌, ◌<◌, [], ◌∷◌, length, MatchOption};
ghost use Rattle.std.specs.Option.{option_map};
ghost use Rattle.fields.specs.Cuts.{front, after, lines};

// What stands before the first separator, and what follows it if there is one.
pub fn cut(bytes: &[u8], separator: u8) -> (&[u8], Option<&[u8]>)
    ensures front { result.0.now ≡ front separator bytes.now }
    ensures rest { option_map (λ x. x.now) result.1 ≡ after separator bytes.now }
{
    match bytes.iter().position(|byte| *byte == separator) {
        Some(i) => (&bytes[..i], Some(&bytes[i + 1..])),
        None => (bytes, None),
    }
}

// The first line, without its line feed, and what follows it; none where nothing is left.
pub fn next_line(text: &[u8]) -> Option<(&[u8], &[u8])>
    ensures { MatchOption result (lines text.now ≡ []) (λ p. (lines text.now ≡ p.0.now ∷ lines p.1.now) × (length p.1.now < length text.now)) }
{
    if text.is_empty() {
        return None;
    }
    let (line, rest) = cut(text, b'\n');
    Some((line, rest.unwrap_or(&[])))
}
