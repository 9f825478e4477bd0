// The lines of a text.
ghost use Rattle.std.specs.Prelude.{◌≡◌, [], ◌==◌, MatchOption, position};
ghost use Rattle.roadtext.specs.Text.{lines, CutLine};

// The place of the first line end.
fn line_end(text: &[u8]) -> Option<usize>
    ensures { result ≡ position (λ b. b == 10) text.now }
{
    text.iter().position(|b| *b == b'\n')
}

// The first line of a text, without its end, and what comes after it; nothing where the text has no byte. (By hand: the library's
// `split_inclusive` would leave the end on each line, and has a closure in its type, which a walk would then have too.)
pub(crate) fn cut_line(text: &[u8]) -> Option<(&[u8], &[u8])>
    ensures { MatchOption result (lines text.now ≡ []) (λ p. CutLine text.now p.0.now p.1.now) }
{
    if text.is_empty() {
        return None;
    }
    match line_end(text) {
        Some(end) => Some((&text[..end], &text[end + 1..])),
        None => Some((text, &[])),
    }
}
