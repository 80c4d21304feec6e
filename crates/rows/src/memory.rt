ghost use Rattle.std.specs.Prelude.{◌≡◌, ◌<◌, ◌≤◌, ◌/◌, length, take, slice_index_or, slice_set};
ghost use Rattle.rows.specs.Rings.{none};
ghost use Rattle.rows.specs.Links.{nexts, prevs, cell_keys};

use crate::cells::Cell;
use std::marker::Model;

/// The most links that a map has: as many as a table has entries.
pub const MOST_LINKS: usize = 65_535;

/// The memory of the rows, two cells for each link. It may be read, written, lent on and taken back.
#[derive(Drop)]
pub struct Rows<'a, N> {
    pub cells: &'a mut [Cell<N>],
}

// Clauses see the list of the cells.
impl<'a, N> Model for Rows<'a, N> {
    ghost use Rattle.std.specs.Prelude.{◌≤◌, List, length};
    ghost use Rattle.rows.specs.Rings.{none};
    ghost use Rattle.rows.specs.declared.cells.Cell.{Cell};

    ghost Value = { List (Cell N) };

    ghost view = { λ r. r.cells.now };

    ghost invariant = { λ r. length r.cells.now ≤ none };
}

impl<'a, N: Copy> Rows<'a, N> {
    /// Rows over a memory of any length: no more cells are used than the most links have.
    pub fn new(cells: &'a mut [Cell<N>]) -> Self
        ensures { result ≡ take 131070 cells.old }
    {
        let used = (2 * MOST_LINKS).min(cells.len());
        Rows {
            cells: &mut cells[..used],
        }
    }

    /// Rows over the whole of a memory whose cells a link can number.
    pub fn over(cells: &'a mut [Cell<N>]) -> Self
        requires small { length cells.old ≤ none }
        ensures { result ≡ cells.old }
    {
        Rows { cells }
    }

    /// The cells of all rows.
    pub fn as_slice(&self) -> &[Cell<N>]
        ensures { result.now ≡ self.now }
    {
        &*self.cells
    }

    /// How many links the memory has cells for.
    pub fn room(&self) -> usize
        ensures links { result ≡ length self.now / 2 }
        ensures small { length self.now ≤ none }
    {
        room(self.cells)
    }

    /// The key of the cell `c`.
    pub fn key(&self, c: u32) -> N
        requires { c < length self.now }
        ensures { (d : N) → result ≡ slice_index_or (cell_keys self.now) c d }
    {
        cell(self.cells, c).key
    }

    /// Writes the key of the cell `c`. The rows stay as they are.
    pub fn set_key(&mut self, c: usize, k: N)
        requires { c < length self.old }
        ensures keys { cell_keys self.new ≡ slice_set (cell_keys self.old) c k }
        ensures nexts { nexts self.new ≡ nexts self.old }
        ensures prevs { prevs self.new ≡ prevs self.old }
    {
        set_key(self.cells, c, k);
    }
}

/// How many links any memory has cells for.
pub fn room<N>(cells: &[Cell<N>]) -> usize
    ensures { result ≡ length cells.now / 2 }
{
    cells.len() / 2
}

/// Writes the key of the cell `c` of any memory. The links stay as they are.
pub fn set_key<N: Copy>(cells: &mut [Cell<N>], c: usize, k: N)
    requires { c < length cells.old }
    ensures keys { cell_keys cells.new ≡ slice_set (cell_keys cells.old) c k }
    ensures nexts { nexts cells.new ≡ nexts cells.old }
    ensures prevs { prevs cells.new ≡ prevs cells.old }
{
    cells[c].key = k;
}

// The cell `c` of any memory.
pub(crate) fn cell<N: Copy>(cells: &[Cell<N>], c: u32) -> Cell<N>
    requires { c < length cells.now }
    ensures { (d : _) → result ≡ slice_index_or cells.now c d }
{
    cells[c as usize]
}
