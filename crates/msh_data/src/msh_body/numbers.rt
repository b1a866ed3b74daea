//! The numbers of a body, each with its line.

ghost use Rattle.std.specs.Prelude.{◌≡◌, is_some};
ghost use Rattle.input_defs.specs.scan_defs.Numbers.{uint_of, int_of, fixed_of, decimal_of};
ghost use Rattle.input_defs.specs.DataSections.{data_number_fault, real};
ghost use Rattle.input_laws.specs.reading_laws.Going.{lined, passed, Goes};

use crate::msh_body::tokens::next_word;
use input_defs::DataFault;
use scan::{NumberFault, Scan, read_fixed, read_int, read_uint};

/// The fault of a token on a line that is no number.
fn number_fault(fault: NumberFault, line: u32) -> DataFault
    ensures { result ≡ data_number_fault fault line }
{
    match fault {
        NumberFault::NotNumber => DataFault::BadNumber { line },
        NumberFault::OutOfRange => DataFault::OutOfRange { line },
    }
}

/// The next token as an unsigned number, with its line.
pub fn uint(scan: &mut Scan<'_>) -> Result<(u32, u32), DataFault>
    ensures { Goes (lined uint_of) scan.old result scan.new }
{
    let word = next_word(scan)?;
    match read_uint(word.text) {
        Ok(number) => Ok((number, word.line)),
        Err(fault) => Err(number_fault(fault, word.line)),
    }
}

/// The next token as a signed number, with its line.
pub fn int(scan: &mut Scan<'_>) -> Result<(i32, u32), DataFault>
    ensures { Goes (lined int_of) scan.old result scan.new }
{
    let word = next_word(scan)?;
    match read_int(word.text) {
        Ok(number) => Ok((number, word.line)),
        Err(fault) => Err(number_fault(fault, word.line)),
    }
}

/// The next token as a fixed-point number in 10^-10, with its line.
pub fn fixed(scan: &mut Scan<'_>) -> Result<(i64, u32), DataFault>
    ensures { Goes (lined fixed_of) scan.old result scan.new }
{
    let word = next_word(scan)?;
    match read_fixed(word.text) {
        Ok(number) => Ok((number, word.line)),
        Err(fault) => Err(number_fault(fault, word.line)),
    }
}

/// Whether a token has the shape of a fixed-point number, of any value.
fn is_fixed(text: &[u8]) -> bool
    ensures { result ≡ is_some (decimal_of text.now) }
{
    match read_fixed(text) {
        Ok(_) => true,
        Err(NumberFault::OutOfRange) => true,
        Err(NumberFault::NotNumber) => false,
    }
}

/// Passes the next token, which has to have the shape of a fixed-point number, of any value.
pub fn pass_real(scan: &mut Scan<'_>) -> Result<(), DataFault>
    ensures { Goes (passed real) scan.old result scan.new }
{
    let word = next_word(scan)?;
    if is_fixed(word.text) {
        Ok(())
    } else {
        Err(DataFault::BadNumber { line: word.line })
    }
}
