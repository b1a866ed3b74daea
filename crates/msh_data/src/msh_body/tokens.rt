//! The next token of a body.

ghost use Rattle.std.specs.Prelude.{◌≡◌, [], IfOk, IfErr};
ghost use Rattle.input_defs.specs.declared.DataFault.TheVariants.{BadCount};
ghost use Rattle.input_laws.specs.reading_laws.Lexemes.{lexemes, beyond, end_line, at_end, IsNext};
ghost use Rattle.input_laws.specs.reading_laws.Going.{end_of_body, Goes};

use input_defs::DataFault;
use scan::Scan;

/// A token with the number of its line.
#[derive(Clone, Copy)]
pub struct Word<'a> {
    pub text: &'a [u8],
    pub line: u32,
}

/// The next token of the body. An `Err` is that the body has ended, with the line that ended it.
pub fn next_word<'a>(scan: &mut Scan<'a>) -> Result<Word<'a>, DataFault>
    ensures stays { beyond scan.new ≡ beyond scan.old }
    ensures next { IfOk result (λ word. IsNext word.text.now word.line (lexemes scan.old) (lexemes scan.new)) }
    ensures ended { IfErr result (λ e. e ≡ DataFault.Ended (end_line (beyond scan.old))) }
    ensures nothing { IfErr result (λ _. lexemes scan.old ≡ []) }
    ensures left { IfErr result (λ _. lexemes scan.new ≡ []) }
    ensures stands { IfErr result (λ _. scan.new ≡ at_end (beyond scan.old)) }
{
    match scan.token() {
        Some(token) => Ok(Word {
            text: scan.text(&token),
            line: token.line,
        }),
        None => Err(DataFault::Ended { line: scan.line() }),
    }
}

/// Looks whether the body has ended. An `Err` is that there is a further token: a wrong count.
///
/// After `Ok` the scan stands at the header line that ended the body, or at the end of the bytes.
pub fn end_of_body(scan: &mut Scan<'_>) -> Result<(), DataFault>
    ensures goes { Goes (end_of_body BadCount) scan.old result scan.new }
    ensures stands { IfOk result (λ _. scan.new ≡ at_end (beyond scan.old)) }
{
    match next_word(scan) {
        Ok(word) => Err(DataFault::BadCount { line: word.line }),
        Err(_) => Ok(()),
    }
}
