// Where each name is among the rows.

ghost use Rattle.std.specs.Prelude.{◌≡◌, Some, None, OnOk, OnErr, IfErr, cond};
ghost use Rattle.binder.specs.Interfaces.{is_same_name};
ghost use Rattle.binder.specs.Index.{place_in};

use crate::interface::InterfaceName;
use crate::row::ExportFault;
use indexmap::IndexMap;
use std::alloc::Global;

/// The row of each name that is exported.
pub(crate) type Places = IndexMap<InterfaceName, u16>;

/// The row of a name.
#[tactic(auto, unfolding(crate::specs::Index::place_in))]
pub(crate) fn place_of(places: &Option<Places>, name: &InterfaceName) -> Option<u16>
    ensures { result ≡ place_in places.now name.now }
{
    places.as_ref()?.get(name).copied()
}

/// Notes the row of a name. The first name makes the table.
#[tactic(auto, unfolding(crate::specs::Index::place_in))]
pub(crate) fn note(
    places: &mut Option<Places>,
    alloc: Global,
    name: InterfaceName,
    index: u16,
) -> Result<(), ExportFault>
    ensures noted { OnOk result ((other : InterfaceName)
        → place_in places.new other ≡ cond (is_same_name name other) (Some index) (place_in places.old other)) }
    ensures unchanged { OnErr result ((other : InterfaceName) → place_in places.new other ≡ place_in places.old other) }
    ensures memory { IfErr result (λ fault. fault ≡ ExportFault.Memory) }
{
    match places {
        Some(places) => {
            if places.insert(name, index).is_err() {
                return Err(ExportFault::Memory);
            }
        }
        None => {
            let mut first = IndexMap::new(alloc);
            if first.insert(name, index).is_err() {
                return Err(ExportFault::Memory);
            }
            *places = Some(first);
        }
    }
    Ok(())
}

/// Forgets the row of a name, and gives it.
#[tactic(auto, unfolding(crate::specs::Index::place_in))]
pub(crate) fn forget(places: &mut Option<Places>, name: &InterfaceName) -> Option<u16>
    ensures place { result ≡ place_in places.old name.now }
    ensures forgotten { (other : InterfaceName)
        → place_in places.new other ≡ cond (is_same_name name.now other) None (place_in places.old other) }
{
    places.as_mut()?.swap_remove(name)
}
