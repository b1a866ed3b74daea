ghost use Rattle.std.specs.Prelude.{◌≡◌, ◌<◌, ◌↔◌, IsNone, IfSome};
ghost use Rattle.plex_base.specs.Dim.{dim_number};

/// A dimension of points, from vertices to solids. Dimensions are ordered by their numbers.
#[derive(Clone, Copy, Debug, PartialEq, Eq, PartialOrd, Ord, Hash)]
pub enum Dim {
    Zero,
    One,
    Two,
    Three,
}

impl Dim {
    /// The dimension as a number, from 0 to 3.
    pub fn number(self) -> u32
        ensures { result ≡ dim_number self }
    {
        match self {
            Dim::Zero => 0,
            Dim::One => 1,
            Dim::Two => 2,
            Dim::Three => 3,
        }
    }

    /// The dimension of this number, or none where it is above 3.
    pub fn of(n: u32) -> Option<Dim>
        ensures none { IsNone result ↔ (3 < n) }
        ensures number { IfSome result (λ dim. dim_number dim ≡ n) }
    {
        match n {
            0 => Some(Dim::Zero),
            1 => Some(Dim::One),
            2 => Some(Dim::Two),
            3 => Some(Dim::Three),
            _ => None,
        }
    }
}
