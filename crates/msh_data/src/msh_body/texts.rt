//! The quoted texts of a body.

ghost use Rattle.std.specs.Prelude.{◌≡◌};
ghost use Rattle.input_defs.specs.Causes.{map_ok};
ghost use Rattle.input_defs.specs.Bodies.{quoted};
ghost use Rattle.input_laws.specs.reading_laws.Going.{Goes};

use crate::msh_body::tokens::next_word;
use input_defs::DataFault;
use scan::Scan;

/// The next quoted text, which stands alone on what is left of the line or, where that is blank, on
/// the next line that is not blank.
pub fn quoted<'a>(scan: &mut Scan<'a>) -> Result<&'a [u8], DataFault>
    ensures { Goes quoted scan.old (map_ok (λ text. text.now) result) scan.new }
{
    match scan.quoted() {
        Ok(token) => Ok(scan.text(&token)),
        Err(line) => {
            // The body may have ended, or something else stands there.
            let _ = next_word(scan)?;
            Err(DataFault::BadName { line })
        }
    }
}
