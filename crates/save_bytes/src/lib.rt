//! What every layer shares: the fields of a format, the words of a command line, and spaces, which are lists of cells.
#![tactic(auto)]

mod extent;
mod fields;
mod memory;
mod name;
mod path;
mod reading;
mod space;
mod words;

pub use extent::{Extent, some_overlap};
pub use fields::{set_u32, set_u64, u32_at, u64_at};
pub use memory::MemSpace;
pub use name::Name;
pub use path::{Path, PathFault};
pub use reading::{space_copy, space_u32, space_u64};
pub use space::{Bad, Floor, Space};
pub use words::Words;

#[cfg(test)]
mod path_tests;
#[cfg(test)]
mod tests;
