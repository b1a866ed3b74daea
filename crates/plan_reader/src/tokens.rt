//! Lines, and the tokens of a line.

ghost use Rattle.std.specs.Prelude.{◌≡◌, ◌<◌, ◌≤◌, ◌≢◌, ◌+◌, [], ◌∷◌, length, not, option_map, MatchOption, IfSome};
ghost use Rattle.std.specs.List.{position_or_len};
ghost use Rattle.input_defs.specs.line_defs.Rows.{is_blank, is_newline, lines_of, tokens_of};
ghost use Rattle.plan_reader.specs.Reading.{lines_left};

/// Whether a byte stands between tokens: blank, tab and CR.
fn is_blank(byte: u8) -> bool
    ensures { result ≡ is_blank byte }
{
    byte == b' ' || byte == b'\t' || byte == b'\r'
}

/// How many bytes stand before the first blank, or in all.
fn end_of_token(bytes: &[u8]) -> usize
    ensures value { result ≡ position_or_len is_blank bytes.now }
    ensures bound { result ≤ length bytes.now }
{
    let end = bytes.iter().position(|byte| is_blank(*byte));
    end.unwrap_or(bytes.len())
}

/// How many blanks stand in front.
fn start_of_token(bytes: &[u8]) -> usize
    ensures value { result ≡ position_or_len (λ b. not (is_blank b)) bytes.now }
    ensures bound { result ≤ length bytes.now }
{
    let start = bytes.iter().position(|byte| !is_blank(*byte));
    start.unwrap_or(bytes.len())
}

/// How many bytes stand before the first LF, or in all.
fn end_of_line(bytes: &[u8]) -> usize
    ensures value { result ≡ position_or_len is_newline bytes.now }
    ensures bound { result ≤ length bytes.now }
{
    let end = bytes.iter().position(|byte| *byte == b'\n');
    end.unwrap_or(bytes.len())
}

/// The first token of a line, and what stands behind it.
pub fn token(line: &[u8]) -> Option<(&[u8], &[u8])>
    ensures tokens { MatchOption result (tokens_of line.now ≡ []) (λ x. tokens_of line.now ≡ x.0.now ∷ tokens_of x.1.now) }
    ensures some { IfSome result (λ x. 0 < length x.0.now) }
    ensures shorter { IfSome result (λ x. length x.1.now < length line.now) }
{
    let rest = &line[start_of_token(line)..];
    let end = end_of_token(rest);
    if end == 0 {
        return None;
    }
    Some(rest.split_at(end))
}

/// The token of a line that has only one.
pub fn sole_token(line: &[u8]) -> Option<&[u8]>
    ensures { MatchOption result (length (tokens_of line.now) ≢ 1) (λ x. tokens_of line.now ≡ x.now ∷ []) }
{
    let (first, rest) = token(line)?;
    if token(rest).is_some() {
        return None;
    }
    Some(first)
}

/// The first line, and the bytes of the lines behind it, if there are any.
pub fn split_line(bytes: &[u8]) -> (&[u8], Option<&[u8]>)
    ensures lines { lines_of bytes.now ≡ result.0.now ∷ lines_left (option_map (λ rest. rest.now) result.1) }
    ensures bound { length result.0.now ≤ length bytes.now }
    ensures shorter { IfSome result.1 (λ rest. length rest.now ≤ length bytes.now) }
{
    let end = end_of_line(bytes);
    if end == bytes.len() {
        return (bytes, None);
    }
    (&bytes[..end], Some(&bytes[end + 1..]))
}
