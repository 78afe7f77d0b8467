//! The code of conditions.

ghost use Rattle.std.specs.Prelude.{◌≡◌, ◌++◌, map, OnOk};
ghost use Rattle.std.specs.List.{concat};
ghost use Rattle.ssi_identities.specs.Codes.{IsShort, code_of_cond, code_of_item, with_length};

use crate::length::{fill_length, leave_length};
use ssi_base::OutOfMemory;
use ssi_identities::{Cond, CondItem, CondOp};

/// Appends the code of a condition.
#[cycle(cond)]
pub fn write_cond(code: &mut Vec<u8>, cond: &Cond) -> Result<(), OutOfMemory>
    requires short { IsShort (code_of_cond cond.now) }
    ensures { OnOk result (code.new.items ≡ code.old.items ++ code_of_cond cond.now) }
{
    for item in cond.items.as_slice() {
        write_item(code, item)?;
    }
    Ok(())
}

/// Appends the code of a condition with its length.
#[cycle(cond)]
pub fn write_cond_with_length(code: &mut Vec<u8>, cond: &Cond) -> Result<(), OutOfMemory>
    requires short { IsShort (code_of_cond cond.now) }
    ensures { OnOk result (code.new.items ≡ code.old.items ++ with_length (code_of_cond cond.now)) }
{
    let place = leave_length(code)?;
    write_cond(code, cond)?;
    fill_length(code, place);
    Ok(())
}

#[cycle(cond)]
fn write_item(code: &mut Vec<u8>, item: &CondItem) -> Result<(), OutOfMemory>
    requires short { IsShort (code_of_item item.now) }
    ensures { OnOk result (code.new.items ≡ code.old.items ++ code_of_item item.now) }
{
    match item {
        CondItem::Lit { fact, wanted } => {
            let [high, low] = fact.to_be_bytes();
            code.extend_from_slice(&[CondOp::Fact(*wanted).byte(), high, low])?;
        }
        CondItem::Bit { bit, wanted } => {
            code.push(CondOp::Bit(*wanted).byte())?;
            code.push(*bit)?;
        }
        CondItem::Free { points, reverse } => {
            let [high, low] = points.to_be_bytes();
            code.extend_from_slice(&[CondOp::Free(*reverse).byte(), high, low])?;
        }
        CondItem::Any(alternatives) => {
            code.push(CondOp::Group.byte())?;
            let place = leave_length(code)?;
            write_alternatives(code, alternatives.as_slice())?;
            fill_length(code, place);
        }
    }
    Ok(())
}

/// Appends the code of some alternatives, each with its length.
#[cycle(cond)]
fn write_alternatives(code: &mut Vec<u8>, alternatives: &[Cond]) -> Result<(), OutOfMemory>
    requires short { IsShort (concat (map with_length (map code_of_cond alternatives.now))) }
    ensures { OnOk result (code.new.items
        ≡ code.old.items ++ concat (map with_length (map code_of_cond alternatives.now))) }
{
    for cond in alternatives {
        write_cond_with_length(code, cond)?;
    }
    Ok(())
}
