//! Which module has an address, and what an identity is wired to.

ghost use Rattle.std.specs.Prelude.{◌≡◌, ◌<◌, true, length};
ghost use Rattle.ssi_identities.specs.DataSets.{names_in, module_with};
ghost use Rattle.ssi_identities.specs.Wells.{wiring_kind};
ghost use Rattle.ssi_image.specs.Places.{IsWiredTo, is_wired_kind};

use crate::image::Image;
use ssi_identities::Kind;

impl Image {
    /// The number of the module that has an address; none where no module has it.
    pub fn module_at(&self, address: u8) -> Option<u8>
        ensures { result ≡ module_with self.now address }
    {
        if address < 64 {
            self.tables.places[usize::from(address)]
        } else {
            None
        }
    }

    /// The module that points, a signal or a track are wired to, by its number, and the pin.
    pub fn wired(&self, kind: Kind, index: u16) -> (u8, u8)
        requires kind { is_wired_kind kind ≡ true }
        requires within { index < length (names_in self.now kind) }
        ensures { IsWiredTo self.now (wiring_kind kind) index result.0 result.1 }
    {
        self.tables.wires(kind)[usize::from(index)]
    }
}
