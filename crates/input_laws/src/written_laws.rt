//! A mesh that is written out as a file is read back: laws of texts and of what they are read as.
//!
//! Each function below does nothing: its contract is the law, and its proof is the law's.

ghost use Rattle.std.specs.Prelude.{◌≡◌, ℕ, ℤ, Ok, decimal};
ghost use Rattle.std.specs.Fmt.{signed_decimal};
ghost use Rattle.input_defs.specs.line_defs.Numbers.{fixed_text};
ghost use Rattle.input_defs.specs.scan_defs.Numbers.{uint_of, int_of, fixed_of};
ghost use Rattle.input_defs.specs.RightContent.{IsUnsigned, IsSigned, IsFixed, IsRight};
ghost use Rattle.input_defs.specs.Content.{Content};
ghost use Rattle.input_defs.specs.Files.{content};
ghost use Rattle.input_laws.specs.written_laws.Written.{IsWritable, file_of};

/// The decimal text of a number in range is read as that number.
pub fn written_numbers_are_read_back()
    ensures unsigned { (n : ℕ) → IsUnsigned n → uint_of (decimal n) ≡ Ok n }
    ensures signed { (z : ℤ) → IsSigned z → int_of (signed_decimal z) ≡ Ok z }
    ensures fixed { (v : ℤ) → IsFixed v → fixed_of (fixed_text v) ≡ Ok v }
{}

/// A right content that is written out as a file is what that file says: the texts of its names stand on one line each, and a
/// data section has fewer than 2^31 rows.
pub fn written_content_is_read_back()
    ensures { (c : Content) → IsRight c → IsWritable c → content (file_of c) ≡ Ok c }
{}
