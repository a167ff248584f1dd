//! Names that differ.
ghost use Rattle.std.specs.Prelude.{◌≡◌, ◌||◌, not, ℕ, List as Items, IfOk, OnOk, bytes_eq, map};
ghost use Rattle.ds2_value.specs.Schema.{distinct_names};
ghost use Rattle.ds2_code.specs.ValidCode.{names_differ};
ghost use Rattle.ds2_valid_code.specs.SeenNames.{has_name};

use ds2_base::{Name, OutOfMemory};
use ds2_code::OutputPart;
use ds2_value::Column;
use std::alloc::Global;
use std::collections::BTreeSet;

// What has a name.
pub(crate) trait Named {
    ghost own_name: { Self → Items ℕ };

    fn name(&self) -> &Name
        ensures { result.now ≡ own_name self.now };
}

impl Named for OutputPart {
    ghost own_name = { λ output. output.name };

    fn name(&self) -> &Name {
        &self.name
    }
}

impl Named for Column {
    ghost own_name = { λ column. column.name };

    fn name(&self) -> &Name {
        &self.name
    }
}

impl Named for (Name, u32) {
    ghost own_name = { λ column. column.0 };

    fn name(&self) -> &Name {
        &self.0
    }
}

// Adds a name to those that were seen, and tells whether it is a new one.
fn is_new<'p>(seen: &mut BTreeSet<&'p str>, name: &'p Name) -> Result<bool, OutOfMemory>
    ensures new { IfOk result (λ new. new ≡ not (has_name seen.old name.now)) }
    ensures seen { OnOk result ((other : Items ℕ) → has_name seen.new other ≡ (bytes_eq name.now other || has_name seen.old other)) }
{
    let text = name.as_str();
    let new = seen.insert(text)?;
    Ok(new)
}

// Whether no name stands twice.
pub(crate) fn names_differ<T: Named>(alloc: Global, items: &[T]) -> Result<bool, OutOfMemory>
    ensures { IfOk result (λ differ. differ ≡ names_differ (map T.own_name items.now)) }
{
    let mut seen: BTreeSet<&str> = BTreeSet::new(alloc);
    'items: for item in items {
        if !is_new(&mut seen, item.name())? {
            return Ok(false);
        }
    }
    Ok(true)
}

// Whether no two columns have one name.
pub(crate) fn columns_differ(alloc: Global, columns: &[Column]) -> Result<bool, OutOfMemory>
    ensures { IfOk result (λ differ. differ ≡ distinct_names columns.now) }
{
    names_differ(alloc, columns)
}
