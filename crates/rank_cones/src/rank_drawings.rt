//! The diagrams that ranks draw of what they hold, once they know keys and arrangements.
//!
//! [`draw_all`] lets each rank put its faces and edges in the order of their keys and draw the oriented
//! cones of its points, the ranks side by side. A [`Drawing`] has what one rank holds and what it drew.

mod cells;
mod desks;
mod dimension;
mod drawing;
mod ranks;

pub use drawing::Drawing;
pub use ranks::draw_all;
