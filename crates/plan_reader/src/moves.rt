//! The steps of a plan, and its sections, as they are kept.

ghost use Rattle.std.specs.Prelude.{◌≡◌, ◌<◌, ◌^◌, length};

/// The rank of each cell, as a part lists them.
#[derive(Debug, Drop)]
pub(crate) struct RankList {
    pub(crate) ranks: Vec<u32>,
    ghost few: { length ranks.items < 2 ^ 32 },
}

/// How a part spreads the cells: in blocks, in stripes, or by a list.
#[derive(Debug, Drop)]
pub(crate) enum Spread {
    Block,
    Stripe,
    Listed(RankList),
}

/// A part, or layers of overlap, where 0 drops all layers.
#[derive(Debug, Drop)]
pub(crate) enum Move {
    Part(Spread),
    Layers(u32),
}

/// A move with the number of its line.
#[derive(Debug, Drop)]
pub(crate) struct MoveLine {
    pub(crate) line: u32,
    pub(crate) what: Move,
}

/// A section: its name, and how many words it has at each point of dimension 0, 1, 2 and 3.
#[derive(Debug, Drop)]
pub(crate) struct DofsLine {
    pub(crate) name: Vec<u8>,
    pub(crate) dofs: [u32; 4],
}
