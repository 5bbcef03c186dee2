//! The rows of a tree.

ghost use Rattle.std.specs.Prelude.{◌≡◌, ◌<◌, length, slice_get, Some};

use save_bytes::Path;
use std::marker::Model;

/// A directory, a file with its size, or a file with its identifier.
#[derive(Debug, Drop)]
pub enum Row {
    Dir(Path),
    File(Path, u64),
    Link(Path, u64),
}

/// The rows of a tree, in their order. Contracts see it as the list of its rows.
#[derive(Debug, Drop)]
pub struct Listing {
    rows: Vec<Row>,
}

impl Model for Listing {
    ghost use Rattle.std.specs.Prelude.{List};
    ghost use Rattle.tree_model.specs.declared.listing.Row.{Row};

    ghost Value = { List Row };

    ghost view = { λ listing. listing.rows.items };
}

impl Listing {
    /// The listing of these rows.
    pub fn new(rows: Vec<Row>) -> Listing
        ensures { result ≡ rows.items }
    {
        Listing { rows }
    }

    /// How many rows there are.
    pub fn len(&self) -> usize
        ensures { result ≡ length self.now }
    {
        self.rows.len()
    }

    /// Row `i`, counted from 0.
    pub fn row(&self, i: usize) -> &Row
        requires { i < length self.now }
        ensures { slice_get self.now i ≡ Some result.now }
    {
        &self.rows[i]
    }
}
