// A new link's cells are put into the rows of its two ends.
ghost use Rattle.std.specs.Prelude.{◌≡◌, ℕ, ◌+◌, ◌*◌, ◌/◌, ◌<◌, ◌≤◌, cond, length, Some as Somewhere, ◌==◌, ◌≢◌, slice_index_or};
ghost use Rattle.keys.specs.Order.{alike};
ghost use Rattle.lists.specs.Positions.{position};
ghost use Rattle.table.specs.Tables.{sought};
ghost use Rattle.model.specs.Keys.{keys, eq};
ghost use Rattle.model.specs.Lists.{bit};
ghost use Rattle.model.specs.Maps.{entered, joined};
ghost use Rattle.rows.specs.Rings.{none};
ghost use Rattle.rows.specs.HalfEdges.{side, twin};
ghost use Rattle.halfedges.specs.Cells.{standing, named, noded, wrote, Whole};
ghost use Rattle.adjacency.specs.Stages.{rows_of, keys_of};
ghost use Rattle.adjacency.specs.Seats.{vacant, seated_in, lacking_of};

use crate::adjacency::NodesWithRows;
use keys::nodes::{NodeTrait, same};
use rows::cells::RowHead;
use table::table::Vacancy;

/// How many of the two ends are absent, by what the searches for them answered.
pub fn lacking(first: Result<usize, Vacancy>, second: Result<usize, Vacancy>, one: bool) -> usize
    ensures { result ≡ lacking_of first second one }
{
    usize::from(first.is_err()) + usize::from(second.is_err() && !one)
}

impl<'a, 'r, N: NodeTrait> NodesWithRows<'a, 'r, N> {
    // The place of `n`, by what the search for it answered: an absent one is put at the end, with an empty row.
    fn seat(&mut self, n: N, found: Result<usize, Vacancy>) -> usize
        requires found { found ≡ sought N.order N.value N.hashed self.old.nodes.room self.old.nodes.entries n }
        requires room { length self.old.nodes.entries + vacant found ≤ self.old.nodes.room }
        ensures there { position (λ e. alike N.order (N.value e.0) (N.value n)) self.new.nodes.entries ≡ Somewhere result }
        ensures seated { self.new.nodes.entries ≡ seated_in (keys N.value N.order) n self.old.nodes.entries }
        ensures room { self.new.nodes.room ≡ self.old.nodes.room }
        ensures cells { self.new.cells ≡ self.old.cells }
    {
        match found {
            Ok(i) => i,
            Err(w) => {
                let i = self.nodes.len();
                self.nodes.append(n, RowHead::empty(), w);
                i
            }
        }
    }

    // Puts the cell `c`, which stands in no row, at the end of the row of `n`.
    fn note(&mut self, n: N, found: Result<usize, Vacancy>, c: u32)
        requires found { found ≡ sought N.order N.value N.hashed self.old.nodes.room self.old.nodes.entries n }
        requires room { length self.old.nodes.entries + vacant found ≤ self.old.nodes.room }
        requires within { c < length (keys_of self.old) }
        requires fresh { standing c (rows_of self.old) ≡ 0 }
        requires own { (d : N) → named (keys N.value N.order) d (keys_of self.old) (twin c) ≡ N.value n }
        ensures room { self.new.nodes.room ≡ self.old.nodes.room }
        ensures keys { keys_of self.new ≡ keys_of self.old }
        ensures standing { (x : ℕ) → standing x (rows_of self.new) ≡ standing x (rows_of self.old) + bit (x == c) }
        ensures entered { (d : N) → noded (keys_of self.old) (rows_of self.new) ≡ entered (keys N.value N.order) n (slice_index_or (keys_of self.old) c d, side c) (noded (keys_of self.old) (rows_of self.old)) }
        ensures more { length self.new.nodes.entries ≡ length self.old.nodes.entries + vacant found }
        ensures others { (m : N) → (N.value n ≢ N.value m) → sought N.order N.value N.hashed self.new.nodes.room self.new.nodes.entries m ≡ sought N.order N.value N.hashed self.old.nodes.room self.old.nodes.entries m }
    {
        let i = self.seat(n, found);
        self.enter(i, c);
    }

    // Writes the keys of the two cells of the link `p` from `a` to `b`, while they stand in no row.
    pub(crate) fn write_link(&mut self, p: usize, a: N, b: N)
        requires within { 2 * p + 1 < length (keys_of self.old) }
        requires off { (x : ℕ) → x / 2 ≡ p → standing x (rows_of self.old) ≡ 0 }
        ensures nodes { self.new.nodes ≡ self.old.nodes }
        ensures keys { keys_of self.new ≡ wrote (keys_of self.old) p a b }
        ensures rows { rows_of self.new ≡ rows_of self.old }
        ensures told { noded (keys_of self.new) (rows_of self.new) ≡ noded (keys_of self.old) (rows_of self.old) }
        ensures small { length (keys_of self.new) ≤ none }
    {
        self.rows.set_key(2 * p, b);
        self.rows.set_key(2 * p + 1, a);
    }

    /// Puts the two cells of the new link `p` from `a` to `b` into the rows of its ends, or the one of a link from
    /// `a` to itself. `first` and `second` are what the searches for the ends answered.
    pub fn join(
        &mut self,
        p: usize,
        a: N,
        b: N,
        first: Result<usize, Vacancy>,
        second: Result<usize, Vacancy>,
    )
        requires whole { (d : N) → Whole (keys N.value N.order) d (keys_of self.old) p (rows_of self.old) }
        requires within { 2 * p + 1 < length (keys_of self.old) }
        requires first { first ≡ sought N.order N.value N.hashed self.old.nodes.room self.old.nodes.entries a }
        requires second { second ≡ sought N.order N.value N.hashed self.old.nodes.room self.old.nodes.entries b }
        requires room { length self.old.nodes.entries + lacking_of first second (eq (keys N.value N.order) (N.value a) (N.value b)) ≤ self.old.nodes.room }
        ensures whole { (d : N) → Whole (keys N.value N.order) d (keys_of self.new) (p + 1) (rows_of self.new) }
        ensures room { self.new.nodes.room ≡ self.old.nodes.room }
        ensures keys { keys_of self.new ≡ wrote (keys_of self.old) p a b }
        ensures joined { noded (keys_of self.new) (rows_of self.new) ≡ joined (keys N.value N.order) a b (noded (keys_of self.old) (rows_of self.old)) }
    {
        self.write_link(p, a, b);
        self.note(a, first, (2 * p) as u32);
        if same(&a, &b) {
            return;
        }
        self.note(b, second, (2 * p + 1) as u32);
    }
}
