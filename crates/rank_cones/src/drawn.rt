use plex_base::PointKey;
use plex_chart::Plex;

/// What one rank makes of its cells: their diagram, or the least key of a face that one of them sees under no orientation.
#[derive(Drop)]
pub enum Drawn {
    Whole(Plex),
    Twisted(PointKey),
}
