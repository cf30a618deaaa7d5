ghost use Rattle.std.specs.Prelude.{◌≡◌, ◌<◌, length, slice_index_or, []};
ghost use Rattle.label_graphs.specs.Matrix.{IsMatrix, entry_at};
ghost use Rattle.label_graphs.specs.Views.{matrix_data};

use std::marker::Model;

/// A square table of numbers, an entry for each pair of states.
#[derive(Debug, Drop)]
pub struct Matrix {
    rows: Vec<Vec<u64>>,
}

impl Model for Matrix {
    ghost use Rattle.std.specs.Prelude.{ℕ, List};
    ghost use Rattle.label_graphs.specs.Matrix.{IsMatrix};
    ghost use Rattle.label_graphs.specs.Views.{matrix_data};

    ghost Value = { List (List ℕ) };

    ghost view = { λ matrix. matrix_data matrix.rows.items };

    ghost invariant = { λ matrix. IsMatrix (matrix_data matrix.rows.items) };
}

impl Matrix {
    /// The matrix of these rows, each with as many entries as there are rows.
    pub fn from_rows(rows: Vec<Vec<u64>>) -> Matrix
        requires { IsMatrix (matrix_data rows.items) }
        ensures { result ≡ matrix_data rows.items }
    {
        Matrix { rows }
    }

    /// How many rows there are, and entries in each.
    pub fn size(&self) -> u32
        ensures size { result ≡ length self.now }
        ensures kept { IsMatrix self.now }
    {
        self.rows.len() as u32
    }

    /// The entries of a row.
    pub fn row(&self, from: u32) -> &[u64]
        requires { from < length self.now }
        ensures entries { result.now ≡ slice_index_or self.now from [] }
        ensures kept { IsMatrix self.now }
    {
        &self.rows[from as usize]
    }

    /// The entry at a row and a column.
    pub fn entry(&self, from: u32, to: u32) -> u64
        requires row { from < length self.now }
        requires column { to < length self.now }
        ensures { result ≡ entry_at self.now from to }
    {
        self.row(from)[to as usize]
    }
}
