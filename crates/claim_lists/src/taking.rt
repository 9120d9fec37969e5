//! Claims on one column, taken out of a list.

ghost use Rattle.std.specs.Prelude.{◌≡◌, ◌≤◌, [], length, vec_capacity};
ghost use Rattle.claim_lists.specs.OnColumn.{but_first_on, first_on, is_on, off_column, on_column};

use sumcheck::ColumnClaim;

/// Whether a claim is on a column of a table.
fn is_on(claim: &ColumnClaim, table: u32, column: u32) -> bool
    ensures { result ≡ is_on table column claim.now }
{
    claim.table == table && claim.column == column
}

/// Takes out the first claim on a column, where there is one. The others stay in their order.
pub fn take_first(claims: &mut Vec<ColumnClaim>, table: u32, column: u32) -> Option<ColumnClaim>
    ensures first { result ≡ first_on table column claims.old.items }
    ensures others { claims.new.items ≡ but_first_on table column claims.old.items }
    ensures capacity { vec_capacity claims.new ≡ vec_capacity claims.old }
{
    let mut i = 0;
    while i < claims.len() {
        if is_on(&claims[i], table, column) {
            return Some(claims.remove(i));
        }
        i += 1;
    }
    None
}

/// Moves all claims on a column into another list, which has room for them. They stay in their order,
/// and so do the others.
pub fn move_all(
    claims: &mut Vec<ColumnClaim>,
    table: u32,
    column: u32,
    taken: &mut Vec<ColumnClaim>,
)
    requires empty { taken.old.items ≡ [] }
    requires room { length claims.old.items ≤ vec_capacity taken.old }
    ensures taken { taken.new.items ≡ on_column table column claims.old.items }
    ensures others { claims.new.items ≡ off_column table column claims.old.items }
    ensures capacity { vec_capacity claims.new ≡ vec_capacity claims.old }
    ensures room { vec_capacity taken.old ≤ vec_capacity taken.new }
{
    let mut i = 0;
    while i < claims.len() {
        if !is_on(&claims[i], table, column) {
            i += 1;
        } else if taken.push(claims.remove(i)).is_err() {
            unreachable!();
        }
    }
}
