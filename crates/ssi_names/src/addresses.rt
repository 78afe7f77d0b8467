//! The addresses of modules with which entries of OPT and IPT begin.

ghost use Rattle.std.specs.Prelude.{◌≡◌, ◌++◌, List, map, OnOk};
ghost use Rattle.ssi_terms.specs.declared.tree.Spot.{Spot as Spots};
ghost use Rattle.ssi_names.specs.Faults.{block_address_faults};
ghost use Rattle.ssi_names.specs.NameLists.{set_of, with_name};
ghost use Rattle.ssi_names.specs.Scopes.{known};
ghost use Rattle.ssi_names.specs.Texts.{characters as characters_of};

use crate::code::{BLOCK_TWICE, UNKNOWN};
use crate::fault::{Fault, note};
use crate::name_set::NameSet;
use crate::scope::Scope;
use crate::text::characters;
use ssi_base::OutOfMemory;
use ssi_terms::Spot;
use std::alloc::Global;

/// Notes the fault of an entry's address, where those of earlier entries were seen. The address is seen then.
#[tactic(auto, using(crate::proofs::Sets::in_set))]
pub fn address(
    alloc: Global,
    scope: &Scope<'_>,
    seen: &mut NameSet,
    spot: &Spot,
    faults: &mut Vec<Fault>,
) -> Result<(), OutOfMemory>
    ensures faults { (earlier : List Spots) → seen.old ≡ set_of (map (λ other. characters_of scope.now.text.now other) earlier)
        → OnOk result (faults.new.items ≡ faults.old.items
        ++ block_address_faults (known scope.now) earlier spot.now) }
    ensures seen { OnOk result (seen.new ≡ with_name seen.old (characters_of scope.now.text.now spot.now)) }
{
    let address = characters(scope.text, spot);
    let unknown = !scope.tables.addresses.contains(address);
    let again = seen.add(alloc, address)?;
    note(faults, spot, &[(unknown, UNKNOWN), (again, BLOCK_TWICE)])
}
