ghost use Rattle.std.specs.Prelude.{◌≡◌};
ghost use Rattle.rows.specs.Links.{bare, loose};

/// The number of no cell: what a link holds where a row ends.
// A number: in the lent memory an `Option<u32>` takes twice its room, and one of `NonZeroU32` does too.
pub const NONE: u32 = u32::MAX;

/// One place of a row: the key of a node, and the cells before and after it.
#[derive(Clone, Copy)]
pub struct Cell<N> {
    pub key: N,
    pub(crate) prev: u32,
    pub(crate) next: u32,
}

impl<N> Cell<N> {
    /// A cell for a memory that is to be lent. No row has it.
    pub fn new(key: N) -> Self
        ensures { result ≡ loose key }
    {
        Cell {
            key,
            prev: NONE,
            next: NONE,
        }
    }
}

/// The ends of a row, and how many cells it has.
#[derive(Clone, Copy)]
pub struct RowHead {
    pub(crate) first: u32,
    pub(crate) last: u32,
    pub(crate) len: u32,
}

impl RowHead {
    /// A row of no cells.
    pub fn empty() -> Self
        ensures { result ≡ bare }
    {
        RowHead {
            first: NONE,
            last: NONE,
            len: 0,
        }
    }

    /// The number of the row's cells.
    pub fn len(self) -> usize
        ensures { result ≡ self.len }
    {
        self.len as usize
    }
}
