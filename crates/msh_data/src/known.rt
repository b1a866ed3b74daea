//! The numbers that rows may be for.

ghost use Rattle.std.specs.Prelude.{◌≡◌, ℕ, List};
ghost use Rattle.input_defs.specs.Sections.{has_number};

/// The numbers of the nodes or elements of a file.
pub trait Numbers {
    /// The numbers that are known.
    ghost known: { Self → List ℕ };

    /// Whether a node or element has this number.
    fn knows(&self, number: u32) -> bool
        ensures { result ≡ has_number (known self.now) number };
}
