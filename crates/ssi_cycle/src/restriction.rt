//! What becomes of the identities that are wired to a module which makes no report that can be taken for good.

ghost use Rattle.std.specs.Prelude.{◌≡◌, ◌<◌, Some, length, slice_get};
ghost use Rattle.ssi_identities.specs.DataSets.{ModulePlan, counts_of, names_in};
ghost use Rattle.ssi_identities.specs.Facts.{count_of};
ghost use Rattle.ssi_identities.specs.States.{IsStateOf, after_setting, after_settings};
ghost use Rattle.ssi_identities.specs.Wells.{IsWell, wired_kind as kind_of_wired};
ghost use Rattle.ssi_cycle.specs.Restrictions.{restricted, restriction_of, setting_of};

use ssi_identities::{FactKind, Kind, fact_number};
use ssi_image::Image;
use ssi_state::State;

/// How many pins a module has at most.
const MOST_PINS: u8 = 8;

/// The kind of identity that a module of this kind is wired to.
fn wired_kind(kind: u8) -> Kind
    ensures { result ≡ kind_of_wired kind }
{
    match kind {
        0 => Kind::Points,
        1 => Kind::Signal,
        _ => Kind::Track,
    }
}

/// Gives a fact of an identity a value.
fn set_fact(image: &Image, state: &mut State, kind: FactKind, index: u16, value: bool)
    requires within { index < count_of (counts_of image.now) kind }
    requires state { IsStateOf (counts_of image.now) state.old }
    ensures { state.new ≡ after_setting state.old (setting_of (counts_of image.now) kind index value) }
{
    state.set(fact_number(&image.counts(), kind, index), value);
}

/// Restricts an identity: points become undetected in both lies, a lamp becomes unproved, a track becomes occupied.
fn restrict_identity(image: &Image, state: &mut State, kind: Kind, index: u16)
    requires within { index < length (names_in image.now kind) }
    requires state { IsStateOf (counts_of image.now) state.old }
    ensures { state.new ≡ after_settings state.old (restriction_of (counts_of image.now) kind index) }
{
    match kind {
        Kind::Points => {
            set_fact(image, state, FactKind::DetectedNormal, index, false);
            set_fact(image, state, FactKind::DetectedReverse, index, false);
        }
        Kind::Signal => set_fact(image, state, FactKind::Lamp, index, false),
        Kind::Track => set_fact(image, state, FactKind::Occupied, index, true),
        _ => {}
    }
}

/// Restricts every identity that is wired to a module.
pub fn restrict(image: &Image, module: u8, state: &mut State)
    requires well { IsWell image.now }
    requires there { «module» < length image.now.modules }
    requires state { IsStateOf (counts_of image.now) state.old }
    ensures { (row : ModulePlan) → slice_get image.now.modules «module» ≡ Some row
        → state.new ≡ restricted image.now row state.old }
{
    let kind = wired_kind(image.kind(module));
    for pin in 0..MOST_PINS {
        if let Some(identity) = image.pin(module, pin) {
            restrict_identity(image, state, kind, identity);
        }
    }
}
