//! The fields of the points that a rank sees of its own cells: data sections from its rows, and fields of
//! dofs from the weights of its points.

mod builder;
mod data_fields;
mod dof_fields;
mod sizes;

pub use builder::FieldBuilder;
pub use data_fields::data_field;
pub use dof_fields::dof_field;
pub use sizes::ChartSizes;
