//! The image of a layout.

ghost use Rattle.std.specs.Prelude.{◌≡◌, map, IfOk};
ghost use Rattle.ssi_identities.specs.Wells.{IsWell};
ghost use Rattle.ssi_image.specs.OnePlan.{one_plan};
ghost use Rattle.ssi_image.specs.Packed.{pieces_of};
ghost use Rattle.ssi_image.specs.Shown.{IsImage};

use crate::assembly::rows;
use crate::packed::Rows;
use crate::tables::{Tables, tables_of};
use ssi_base::OutOfMemory;
use ssi_identities::DataSet;
use std::alloc::Global;
use std::marker::Model;

/// The data set of a layout, with its conditions and bodies as code. It is well.
#[derive(Drop)]
pub struct Image {
    pub(crate) rows: Rows,
    pub(crate) tables: Tables,
    ghost of_plan: { IsImage rows } by { one_plan rows },
}

impl Model for Image {
    ghost use Rattle.std.specs.Coded.{codes};
    ghost use Rattle.ssi_identities.specs.contracts.rule.BodyItem as body_item;
    ghost use Rattle.ssi_identities.specs.contracts.rule.CondItem as cond_item;
    ghost use Rattle.ssi_identities.specs.DataSets.{Plan};
    ghost use Rattle.ssi_image.specs.Tables.{AreTablesOf};

    ghost Value = { Plan };

    ghost coded = { Prim.hlevel (codes, cond_item.the_row.coded, body_item.the_row.coded) };

    ghost view = { λ image. image.of_plan.0 };

    ghost invariant = { λ image. AreTablesOf image.of_plan.0 image.tables };
}

impl Image {
    /// The image of a well data set, made of its code: that of each condition and body that it has, in the order of an image.
    pub fn assemble(alloc: Global, plan: &DataSet, code: Vec<Vec<u8>>) -> Result<Image, OutOfMemory>
        requires well { IsWell plan.now }
        requires code { map (λ piece. piece.items) code.items ≡ pieces_of plan.now }
        ensures { IfOk result (λ image. image ≡ plan.now) }
    {
        let rows = rows(alloc, plan, code)?;
        let tables = tables_of(alloc, &rows)?;
        Ok(Image { rows, tables })
    }
}
