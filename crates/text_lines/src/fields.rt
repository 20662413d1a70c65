//! The fields of a line.

ghost use Rattle.std.specs.Prelude.{◌≡◌, ◌<◌, ◌≤◌, ◌∷◌, [], length, take, drop, MatchOption, IfSome};
ghost use Rattle.text_lines.specs.Fields.{fields_of, is_blank, StartsField};

/// Whether a byte stands between fields: a space or a tab.
pub fn is_blank(byte: u8) -> bool
    ensures { result ≡ is_blank byte }
{
    byte == b' ' || byte == b'\t'
}

/// The first field and what follows it, or `None` for a line without a field.
pub fn next_field(line: &[u8]) -> Option<(&[u8], &[u8])>
    ensures fields { MatchOption result (fields_of line.now ≡ []) (λ x. fields_of line.now ≡ x.0.now ∷ fields_of x.1.now) }
    ensures some { IfSome result (λ x. 0 < length x.0.now) }
    ensures shorter { IfSome result (λ x. length x.1.now < length line.now) }
{
    let start = front_while_blank(line);
    let rest = &line[start..];
    if rest.is_empty() {
        return None;
    }
    let end = front_of_field(rest);
    Some(rest.split_at(end))
}

/// How many blanks are in front.
fn front_while_blank(line: &[u8]) -> usize
    ensures within { result ≤ length line.now }
    ensures same { fields_of line.now ≡ fields_of (drop result line.now) }
    ensures stops { StartsField (drop result line.now) }
{
    for (at, byte) in line.iter().enumerate() {
        if !is_blank(*byte) {
            return at;
        }
    }
    line.len()
}

/// How long the field is that is in front.
fn front_of_field(line: &[u8]) -> usize
    requires starts { StartsField line.now }
    requires some { 0 < length line.now }
    ensures within { result ≤ length line.now }
    ensures some { 0 < result }
    ensures field { fields_of line.now ≡ take result line.now ∷ fields_of (drop result line.now) }
{
    for (at, byte) in line.iter().enumerate() {
        if is_blank(*byte) {
            return at;
        }
    }
    line.len()
}
