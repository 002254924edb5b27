// The rows of a slot's document.
ghost use Rattle.std.specs.Prelude.{◌≡◌, ◌<◌, length, get_or};
ghost use Rattle.sheet_rows.specs.Rows.{blank};
ghost use Rattle.sheet_walks.specs.Walk.{Bared};
ghost use Rattle.expander_parts.specs.Contract.{rows_of};

use sheet_rows::row;
use sheet_rows::row::Row;
use sheet_walks::walk;
use source_lookup::Sources;

// The row of a slot's document.
pub fn row_of(sources: &Sources<'_>, slot: u32, at: usize) -> Row
    requires { slot < length sources.now.dir.now }
    ensures { result ≡ get_or (rows_of sources.now.root.now sources.now.library.now sources.now.dir.now slot) at blank }
{
    row::row_at(expander_parts::sheet_of(sources, slot), at)
}

// Whether a node of a slot's document has no interfaces, no statements and no body order, from the row after its own on.
pub fn bare(sources: &Sources<'_>, slot: u32, at: usize) -> bool
    requires { slot < length sources.now.dir.now }
    ensures { Bared (rows_of sources.now.root.now sources.now.library.now sources.now.dir.now slot) at result }
{
    walk::bare(expander_parts::sheet_of(sources, slot), at)
}
