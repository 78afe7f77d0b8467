//! From a data set to its image.

ghost use Rattle.std.specs.Prelude.{◌≡◌, IfOk};
ghost use Rattle.ssi_identities.specs.Wells.{IsWell};

use crate::rules::pieces;
use ssi_base::OutOfMemory;
use ssi_identities::DataSet;
use ssi_image::Image;
use std::alloc::Global;

/// The image of a well data set.
pub fn compile(alloc: Global, plan: &DataSet) -> Result<Image, OutOfMemory>
    requires { IsWell plan.now }
    ensures { IfOk result (λ image. image ≡ plan.now) }
{
    let code = pieces(alloc, plan)?;
    Image::assemble(alloc, plan, code)
}
