// What stands in the rows.

ghost use Rattle.std.specs.Prelude.{◌≡◌, ◌<◌, IfSome, length};
ghost use Rattle.std.specs.Option.{option_copied};
ghost use Rattle.binder.specs.Exports.{binding_at, free_place, row_at};

use crate::row::ExportRow;
use rpc_header::Export;

/// The export in a row.
pub(crate) fn row_at(rows: &[Option<ExportRow>], index: u16) -> Option<&ExportRow>
    ensures { option_copied result ≡ row_at rows.now index }
{
    rows.get(usize::from(index))?.as_ref()
}

/// The binding to the export in a row.
pub(crate) fn binding_at(rows: &[Option<ExportRow>], index: u16) -> Option<Export>
    ensures { result ≡ binding_at rows.now index }
{
    let row = row_at(rows, index)?;
    Some(Export {
        identifier: row.identifier,
        index,
    })
}

/// The first row that is free.
pub(crate) fn free_place(rows: &[Option<ExportRow>]) -> Option<usize>
    ensures place { result ≡ free_place rows.now }
    ensures within { IfSome result (λ index. index < length rows.now) }
{
    rows.iter().position(|row| row.is_none())
}
