//! A cursor in the bytes of a file, and the ends of what stands after it.

ghost use Rattle.std.specs.Prelude.{◌≡◌, ◌==◌, ◌&&◌, ◌+◌, ◌<◌, ◌≤◌, ◌∷◌, length, get_or, drop, nat_lt, not, true, false};
ghost use Rattle.std.specs.List.{position_or_len};
ghost use Rattle.input_defs.specs.line_defs.Rows.{is_blank, is_newline};
ghost use Rattle.input_defs.specs.scan_defs.Lines.{line_end, place_after_line, back};
ghost use Rattle.input_defs.specs.scan_defs.Items.{ahead, Word, Header};
ghost use Rattle.input_defs.specs.scan_defs.Quotes.{quoted_from};
ghost use Rattle.input_defs.specs.scan_defs.Steps.{next_header, ahead_after_header};
ghost use Rattle.scan.specs.Cursors.{IsAt, IsWithin, is_gap, spot, header_name};

use input_defs::scan_defs::Token;
use plex_base::MAX_FILE_BYTES;

/// A place in the bytes of a file.
#[derive(Clone, Copy, Debug)]
pub struct Cursor {
    pub place: usize,
    /// The number of its line, from 1.
    pub line: u32,
    /// Whether only blanks stand before it on its line.
    pub is_indent: bool,
}

/// Blank, tab or CR.
fn is_blank(byte: u8) -> bool
    ensures { result ≡ is_blank byte }
{
    byte == b' ' || byte == b'\t' || byte == b'\r'
}

fn is_newline(byte: u8) -> bool
    ensures { result ≡ is_newline byte }
{
    byte == b'\n'
}

/// A blank or an LF.
fn is_gap(byte: u8) -> bool
    ensures { result ≡ is_gap byte }
{
    is_blank(byte) || is_newline(byte)
}

/// The next place at which neither a blank nor an LF stands, or the end.
pub fn past_gaps(bytes: &[u8], from: Cursor) -> Cursor
    requires short { length bytes.now ≤ MAX_FILE_BYTES }
    requires from { IsAt bytes.now from }
    ensures at { IsAt bytes.now result }
    ensures ahead { ahead (spot bytes.now result.place) ≡ ahead (spot bytes.now from.place) }
    ensures quoted { quoted_from (spot bytes.now result.place) ≡ quoted_from (spot bytes.now from.place) }
    ensures goes_on { from.place ≤ result.place }
    ensures stops { result.place < length bytes.now → is_gap (get_or bytes.now result.place 0) ≡ false }
{
    let mut at = from;
    while at.place < bytes.len() {
        let byte = bytes[at.place];
        let place = at.place + 1;
        if is_newline(byte) {
            at = Cursor {
                place,
                line: at.line + 1,
                is_indent: true,
            };
        } else if is_blank(byte) {
            at = Cursor { place, ..at };
        } else {
            return at;
        }
    }
    at
}

/// Whether a token of the body begins there, where no gap stands there.
pub fn begins_token(bytes: &[u8], at: Cursor) -> bool
    ensures { result ≡ (nat_lt at.place (length bytes.now) && not (at.is_indent && (get_or bytes.now at.place 0 == 36))) }
{
    at.place < bytes.len() && !(at.is_indent && bytes[at.place] == b'$')
}

/// The end of the run of bytes from a place on that are neither blanks nor LF.
pub fn token_end(bytes: &[u8], start: usize) -> usize
    requires { start ≤ length bytes.now }
    ensures { result ≡ start + position_or_len is_gap (drop start bytes.now) }
{
    let mut end = start;
    while end < bytes.len() {
        if is_gap(bytes[end]) {
            return end;
        }
        end += 1;
    }
    end
}

/// The end of the line of a place.
#[tactic(auto, unfolding(input_defs::specs::scan_defs::Lines::line_end))]
pub fn line_end(bytes: &[u8], place: usize) -> usize
    requires { place ≤ length bytes.now }
    ensures end { result ≡ line_end bytes.now place }
    ensures low { place ≤ result }
    ensures high { result ≤ length bytes.now }
{
    let mut end = place;
    while end < bytes.len() {
        if is_newline(bytes[end]) {
            return end;
        }
        end += 1;
    }
    end
}

/// The place after the last byte of a part of a line that is no blank.
pub fn trimmed_end(text: &[u8]) -> usize
    ensures { result ≡ back text.now }
{
    let mut end = text.len();
    while end > 0 {
        if !is_blank(text[end - 1]) {
            return end;
        }
        end -= 1;
    }
    end
}

/// After the token that begins at a place.
pub fn past_token(bytes: &[u8], at: Cursor) -> Cursor
    requires at { IsAt bytes.now at }
    requires inside { at.place < length bytes.now }
    requires begins { is_gap (get_or bytes.now at.place 0) ≡ false }
    requires body { (at.is_indent && (get_or bytes.now at.place 0 == 36)) ≡ false }
    ensures at { IsAt bytes.now result }
    ensures goes_on { at.place < result.place }
    ensures token { ahead (spot bytes.now at.place) ≡ Word (record { start = at.place; end = result.place; line = at.line }) ∷ ahead (spot bytes.now result.place) }
{
    Cursor {
        place: token_end(bytes, at.place),
        line: at.line,
        is_indent: false,
    }
}

/// At the `$` of the next header line, or at the end.
pub fn past_body(bytes: &[u8], from: Cursor) -> Cursor
    requires short { length bytes.now ≤ MAX_FILE_BYTES }
    requires from { IsAt bytes.now from }
    ensures at { IsAt bytes.now result }
    ensures goes_on { from.place ≤ result.place }
    ensures header { next_header (ahead (spot bytes.now result.place)) ≡ next_header (ahead (spot bytes.now from.place)) }
    ensures ahead { ahead_after_header (ahead (spot bytes.now result.place)) ≡ ahead_after_header (ahead (spot bytes.now from.place)) }
    ensures stops { result.place < length bytes.now → (result.is_indent && (get_or bytes.now result.place 0 == 36)) ≡ true }
{
    let mut at = past_gaps(bytes, from);
    while begins_token(bytes, at) {
        at = past_gaps(bytes, past_token(bytes, at));
    }
    at
}

/// After the header line at whose `$` a cursor stands.
pub fn past_header(bytes: &[u8], at: Cursor) -> Cursor
    requires short { length bytes.now ≤ MAX_FILE_BYTES }
    requires at { IsAt bytes.now at }
    requires inside { at.place < length bytes.now }
    requires header { (at.is_indent && (get_or bytes.now at.place 0 == 36)) ≡ true }
    ensures at { IsAt bytes.now result }
    ensures goes_on { at.place < result.place }
    ensures stands { result.place ≡ place_after_line bytes.now (at.place + 1) }
    ensures ahead { ahead (spot bytes.now at.place) ≡ Header (header_name bytes.now at) ∷ ahead (spot bytes.now result.place) }
{
    let end = line_end(bytes, at.place);
    if end < bytes.len() {
        Cursor {
            place: end + 1,
            line: at.line + 1,
            is_indent: true,
        }
    } else {
        Cursor {
            place: end,
            line: at.line,
            is_indent: false,
        }
    }
}

/// The name on the header line at whose `$` a cursor stands.
pub fn name_at(bytes: &[u8], at: Cursor) -> Token
    requires at { IsAt bytes.now at }
    requires inside { at.place < length bytes.now }
    requires header { (at.is_indent && (get_or bytes.now at.place 0 == 36)) ≡ true }
    ensures name { result ≡ header_name bytes.now at }
    ensures within { IsWithin bytes.now result }
{
    let rest = &bytes[at.place..line_end(bytes, at.place)];
    Token {
        start: at.place + 1,
        end: at.place + trimmed_end(rest),
        line: at.line,
    }
}
