//! Faults of names, and the list in which they are noted.

ghost use Rattle.std.specs.Prelude.{◌≡◌, ◌++◌, OnOk};
ghost use Rattle.ssi_names.specs.Occurrences.{at};

use ssi_base::OutOfMemory;
use ssi_terms::Spot;

/// A fault of a name, a word or a number.
#[derive(Clone, Copy, Debug, PartialEq, Eq)]
pub struct Fault {
    /// What is wrong.
    pub code: u8,
    /// Where it stands.
    pub spot: Spot,
}

/// All faults of a text, in written order.
#[derive(Drop)]
pub struct FaultList {
    /// The faults.
    pub items: Vec<Fault>,
}

/// Why a text has no data set.
#[derive(Drop)]
pub enum ResolveFault {
    /// It has these faults.
    Faults(FaultList),
    /// Memory ran out.
    Memory,
}

/// Notes the fault of an occurrence, if it has one: the first code of its line whose test applies.
pub fn note(faults: &mut Vec<Fault>, spot: &Spot, line: &[(bool, u8)]) -> Result<(), OutOfMemory>
    ensures { OnOk result (faults.new.items ≡ faults.old.items ++ at spot.now line.now) }
{
    for (applies, code) in line {
        if *applies {
            faults.push(Fault {
                code: *code,
                spot: *spot,
            })?;
            return Ok(());
        }
    }
    Ok(())
}
