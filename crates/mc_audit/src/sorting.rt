// Rows in their order, each once, and look-ups in them.
ghost use Rattle.std.specs.Prelude.{◌≡◌};
ghost use Rattle.std.specs.List.{list_any};
ghost use Rattle.std.specs.List.Sorted.{IsStrictlySortedBy};
ghost use Rattle.mc_model.specs.Ascending.{ascending};
ghost use Rattle.mc_raw.specs.RowOrder.{row_cmp};
ghost use Rattle.mc_audit.specs.Rows.{same_row};

use mc_raw::Row;

// The rows in their order, each once.
pub(crate) fn in_order(rows: Vec<Row>) -> Vec<Row>
    ensures is { result.items ≡ ascending row_cmp rows.items }
    ensures sorted { IsStrictlySortedBy row_cmp result.items }
{
    let mut rows = rows;
    rows.sort_unstable();
    rows.dedup();
    rows
}

// Whether the row is among rows in their order.
pub(crate) fn has_row(rows: &[Row], row: &Row) -> bool
    requires { IsStrictlySortedBy row_cmp rows.now }
    ensures { result ≡ list_any (λ other. same_row other row.now) rows.now }
{
    rows.binary_search(row).is_ok()
}
