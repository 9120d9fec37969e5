//! Tables looked up by their names.

ghost use Rattle.std.specs.Prelude.{◌≡◌};
ghost use Rattle.std.specs.List.{list_any};
ghost use Rattle.std.specs.Str.{bytes_eq};

use crate::shape::TableShape;
use table_text::Name;

pub(crate) fn has_table(name: &Name, tables: &[TableShape]) -> bool
    ensures { result ≡ list_any (λ t. bytes_eq name.now t.name) tables.now }
{
    tables.iter().any(|t| name.as_slice() == t.name.as_slice())
}
