//! The scan of a file: header lines, tokens and quoted texts.

ghost use Rattle.std.specs.Prelude.{◌≡◌, ◌-◌, ◌<◌, ◌≤◌, length, if◌then◌else◌, Some, None, IfSome, IfNone, IfOk};
ghost use Rattle.input_defs.specs.scan_defs.Lines.{line_number, front, back};
ghost use Rattle.input_defs.specs.scan_defs.Items.{text_of, ahead};
ghost use Rattle.input_defs.specs.scan_defs.Quotes.{is_quoted, quoted_from, quoted_in};
ghost use Rattle.input_defs.specs.scan_defs.Steps.{moved, line_ahead, next_token, place_after_token, ahead_after_token, next_header, place_after_header, ahead_after_header, place_after_quoted, ahead_after_quoted};
ghost use Rattle.scan.specs.Cursors.{IsWithin};

use crate::cursor::{
    Cursor, begins_token, line_end, name_at, past_body, past_gaps, past_header, past_token,
    trimmed_end,
};
use input_defs::scan_defs::Token;
use plex_base::MAX_FILE_BYTES;
use std::marker::Model;

/// A place in the bytes of a file, from which its header lines, tokens and quoted texts are read
/// (Gmsh manual, MSH format).
///
/// A header line is a line whose first byte that is no blank is `$`. A token is a run of bytes of
/// another line that are no blanks. The body is the tokens up to the next header line.
#[derive(Debug, Drop)]
pub struct Scan<'a> {
    bytes: &'a [u8],
    at: Cursor,
}

impl<'a> Model for Scan<'a> {
    ghost use Rattle.input_defs.specs.scan_defs.Items.{Spot};
    ghost use Rattle.scan.specs.Cursors.{IsScan};

    ghost Value = { Spot };

    ghost view = { λ s. record { bytes = s.bytes.now; place = s.at.place } };

    ghost invariant = { λ s. IsScan s.bytes.now s.at };
}

impl<'a> Scan<'a> {
    /// A scan of the bytes of a file, from its beginning. Condition: at most [`MAX_FILE_BYTES`], so
    /// that the number of each line fits 32 bits.
    pub fn new(bytes: &'a [u8]) -> Scan<'a>
        requires { length bytes.now ≤ MAX_FILE_BYTES }
        ensures { result ≡ record { bytes = bytes.now; place = 0 } }
    {
        Scan {
            bytes,
            at: Cursor {
                place: 0,
                line: 1,
                is_indent: true,
            },
        }
    }

    /// The number, from 1, of the line of the byte at which the scan stands, or of the end of the file.
    pub fn line(&self) -> u32
        ensures { result ≡ line_number self.now.bytes self.now.place }
    {
        self.at.line
    }

    /// The bytes of a token, without a copy. Condition: it lies within the file, as each token does
    /// that a scan of this file answers.
    pub fn text(&self, t: &Token) -> &'a [u8]
        requires { IsWithin self.now.bytes t.now }
        ensures { result.now ≡ text_of self.now.bytes t.now }
    {
        &self.bytes[t.start..t.end]
    }

    /// The next token of the body; none where the body has ended.
    ///
    /// The scan then stands after the token, else at the `$` of the header line that ended the
    /// body, else at the end of the bytes.
    pub fn token(&mut self) -> Option<Token>
        ensures token { result ≡ next_token (ahead self.old) }
        ensures stands { self.new ≡ moved self.old (place_after_token self.old (ahead self.old)) }
        // After none its line is that of the header line that ended the body, or of the end.
        ensures line { IfNone result (line_number self.new.bytes self.new.place ≡ line_ahead self.new.bytes (ahead self.new)) }
        ensures ahead { ahead self.new ≡ ahead_after_token (ahead self.old) }
        ensures within { IfSome result (λ t. IsWithin self.new.bytes t) }
        ensures bytes { self.new.bytes ≡ self.old.bytes }
        ensures goes_on { self.old.place ≤ self.new.place }
        ensures steps { IfSome result (λ _. self.old.place < self.new.place) }
        ensures inside { self.new.place ≤ length self.new.bytes }
    {
        let at = past_gaps(self.bytes, self.at);
        if !begins_token(self.bytes, at) {
            self.at = at;
            return None;
        }
        let end = past_token(self.bytes, at);
        self.at = end;
        Some(Token {
            start: at.place,
            end: end.place,
            line: at.line,
        })
    }

    /// The name on the next header line; none where no header line is left.
    ///
    /// The scan then stands after that line, else at the end of the bytes.
    pub fn header(&mut self) -> Option<Token>
        ensures name { result ≡ next_header (ahead self.old) }
        ensures stands { self.new ≡ moved self.old (place_after_header self.old result) }
        ensures ahead { ahead self.new ≡ ahead_after_header (ahead self.old) }
        ensures within { IfSome result (λ t. IsWithin self.new.bytes t) }
        ensures bytes { self.new.bytes ≡ self.old.bytes }
        ensures goes_on { self.old.place ≤ self.new.place }
        ensures steps { IfSome result (λ _. self.old.place < self.new.place) }
        ensures inside { self.new.place ≤ length self.new.bytes }
    {
        let at = past_body(self.bytes, self.at);
        if at.place == self.bytes.len() {
            self.at = at;
            return None;
        }
        self.at = past_header(self.bytes, at);
        Some(name_at(self.bytes, at))
    }

    /// The quoted text on the rest of the line or, where that is blank, on the next line that is not
    /// blank; the token is the text between the quotes.
    ///
    /// It stands there alone: `"`, the text up to the last `"` of the line, which is another one. The
    /// scan then stands at the end of that line. An `Err` is the number of the line that was looked
    /// at, which may be a header line or the end of the file, and leaves the scan where it was.
    pub fn quoted(&mut self) -> Result<Token, u32>
        ensures answer { result ≡ quoted_from self.old }
        // By what stands ahead: a quoted text begins where the next token does.
        ensures by_items { result ≡ quoted_in self.old.bytes (ahead self.old) }
        ensures stands { self.new ≡ moved self.old (place_after_quoted self.old result) }
        ensures ahead { ahead self.new ≡ ahead_after_quoted (ahead self.old) result }
        ensures within { IfOk result (λ t. IsWithin self.new.bytes t) }
        ensures bytes { self.new.bytes ≡ self.old.bytes }
        ensures goes_on { self.old.place ≤ self.new.place }
        ensures steps { IfOk result (λ _. self.old.place < self.new.place) }
        ensures inside { self.new.place ≤ length self.new.bytes }
    {
        let at = past_gaps(self.bytes, self.at);
        let end = line_end(self.bytes, at.place);
        let Some(last) = last_quote(&self.bytes[at.place..end]) else {
            return Err(at.line);
        };
        self.at = Cursor {
            place: end,
            line: at.line,
            is_indent: false,
        };
        Ok(Token {
            start: at.place + 1,
            end: at.place + last,
            line: at.line,
        })
    }
}

/// The place of the last `"` where a quoted text stands alone in a part of a line that does not
/// begin with a blank.
fn last_quote(text: &[u8]) -> Option<usize>
    requires { front text.now ≡ 0 }
    ensures { result ≡ (if is_quoted text.now then Some (back text.now - 1) else None) }
{
    let end = trimmed_end(text);
    if end >= 2 && text[0] == b'"' && text[end - 1] == b'"' {
        Some(end - 1)
    } else {
        None
    }
}
