//! The lines of a text.

ghost use Rattle.std.specs.Prelude.{◌≡◌, ◌+◌, ◌<◌, [], ◌∷◌, length, take, drop, MatchOption, IfSome};
ghost use Rattle.text_lines.specs.Lines.{lines_of, without_return_of};

/// The first line, without its line feed and a carriage return before that, and the text after it.
pub fn first_line(text: &[u8]) -> (&[u8], &[u8])
    requires { 0 < length text.now }
    ensures lines { lines_of text.now ≡ result.0.now ∷ lines_of result.1.now }
    ensures shorter { length result.1.now < length text.now }
{
    match first_feed(text) {
        Some(at) => (without_return(&text[..at]), &text[at + 1..]),
        None => (text, &[]),
    }
}

/// Where the first line feed is, which ends the first line.
fn first_feed(text: &[u8]) -> Option<usize>
    requires { 0 < length text.now }
    ensures within { IfSome result (λ at. at < length text.now) }
    ensures lines { MatchOption result (lines_of text.now ≡ text.now ∷ []) (λ at. lines_of text.now ≡ without_return_of (take at text.now) ∷ lines_of (drop (at + 1) text.now)) }
{
    for (at, byte) in text.iter().enumerate() {
        if *byte == b'\n' {
            return Some(at);
        }
    }
    None
}

/// The line without one carriage return at its end.
fn without_return(line: &[u8]) -> &[u8]
    ensures { result.now ≡ without_return_of line.now }
{
    if line.is_empty() {
        return line;
    }
    let end = line.len() - 1;
    if line[end] == b'\r' {
        &line[..end]
    } else {
        line
    }
}
