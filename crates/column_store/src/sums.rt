//! Columns that are sums of others, taken word by word.

ghost use Rattle.std.specs.Prelude.{◌≡◌, ℕ, ◌<◌, length, map, slice_get, slice_index, IsTrue, Some};
ghost use Rattle.tower_laws.specs.Tower.{mul};
ghost use Rattle.tower_laws.specs.Lists.{sum_all};
ghost use Rattle.cube_laws.specs.Sums.{tabulate};
ghost use Rattle.table_shape.specs.declared.shape.ShapeTerm.{ShapeTerm as Term};
ghost use Rattle.column_store.specs.Column.{list_of, lists};
ghost use Rattle.column_store.specs.Summands.{AreSummands};

use crate::column::Column;
use table_shape::ShapeTerm;
use tower_field::{B128, Tower};

/// Whether terms are other columns, as they are, of a level and with at least so many values.
pub(crate) fn are_summands(
    columns: &[Column],
    terms: &[ShapeTerm],
    level: u32,
    count: usize,
) -> bool
    requires { (i : ℕ) (term : Term) → slice_get terms.now i ≡ Some term → term.column < length columns.now }
    ensures { IsTrue result → AreSummands columns.now terms.now level count }
{
    for term in terms {
        let column = &columns[term.column as usize];
        if term.coefficient != B128::ONE || column.level() != level || column.len() < count {
            return false;
        }
    }
    true
}

/// Makes a column the sum of the columns of terms.
pub(crate) fn fill_sum(columns: &[Column], terms: &[ShapeTerm], column: &mut Column)
    requires reads { (i : ℕ) (term : Term) → slice_get terms.now i ≡ Some term → term.column < length columns.now }
    requires summands { AreSummands columns.now terms.now column.old.level (length column.old.values) }
    ensures { column.new ≡ record column.old { values = tabulate (length column.old.values) (λ p. sum_all (map (λ (t : Term). mul t.coefficient (slice_index (list_of (lists columns.now) t.column) p)) terms.now)) } }
{
    column.clear();
    for term in terms {
        column.add(&columns[term.column as usize]);
    }
}
