// Where lines end.
ghost use Rattle.std.specs.Prelude.{◌≡◌, ◌<◌, [], ◌∷◌, ◌==◌, length, position, ⊤, MatchOption};
ghost use Rattle.grammar.specs.Pieces.{LineAt, line_feed, lines};

// Where the line that begins at a place ends: at its byte 10. None where no line begins there.
pub fn line_end(sheet: &[u8], start: usize) -> Option<usize>
    ensures { LineAt sheet.now start result }
{
    let length = line_length(sheet.get(start..)?)?;
    Some(start + length)
}

// The line with which a text begins, without the byte that ends it, and what follows that byte. None where no line begins there.
pub fn split_line(text: &[u8]) -> Option<(&[u8], &[u8])>
    ensures lines { MatchOption result (lines text.now ≡ text.now ∷ []) (λ r. lines text.now ≡ r.0.now ∷ lines r.1.now) }
    ensures shorter { MatchOption result ⊤ (λ r. length r.1.now < length text.now) }
{
    let (line, rest) = text.split_at(line_end(text, 0)?);
    Some((line, &rest[1..]))
}

// How long the line is with which a text begins.
fn line_length(text: &[u8]) -> Option<usize>
    ensures { result ≡ position (λ b. b == line_feed) text.now }
{
    text.iter().position(|byte| *byte == b'\n')
}
