//! The interlocking: one event a call.

ghost use Rattle.std.specs.Prelude.{◌≡◌, ◌<◌, ◌↔◌, length, IfOk, IsErr, IsTrue};
ghost use Rattle.ssi_identities.specs.DataSets.{counts_of};
ghost use Rattle.ssi_identities.specs.Facts.{IsWithinLimits};
ghost use Rattle.ssi_identities.specs.States.{IsStateOf};
ghost use Rattle.ssi_state.specs.Changes.{IsNextChange};
ghost use Rattle.ssi_cycle.specs.Cores.{after_event_on, core_of};
ghost use Rattle.ssi_cycle.specs.Outputs.{output_in};
ghost use Rattle.ssi_cycle.specs.Requests.{is_full};
ghost use Rattle.ssi_cycle.specs.Worlds.{taken_in};
ghost use Rattle.ssi_cycle.specs.Worlds.Event.{Put, Minor};

use crate::cycle::{act, note};
use crate::output::output;
use crate::requests::{Full, MOST_WAITING, put_behind};
use arrayvec::ArrayVec;
use ssi_base::OutOfMemory;
use ssi_image::Image;
use ssi_state::State;
use std::alloc::Global;
use std::marker::Model;

/// How many slots there are: a minor cycle for each, and then again from slot 0 on.
const SLOTS: u8 = 64;

/// What a minor cycle did.
#[derive(Clone, Copy, Debug, PartialEq, Eq)]
pub struct Did {
    /// The panel and the number of the request that was taken; none where none waited.
    pub taken: Option<(u8, u16)>,
}

/// An interlocking of a layout: its state, the requests that wait, and the slot that comes next.
#[derive(Drop)]
pub struct Interlocking {
    image: Image,
    state: State,
    before: State,
    // Whether something has acted in the last minor cycle: where nothing has, both states are equal.
    has_acted: bool,
    waiting: ArrayVec<u16, MOST_WAITING>,
    slot: u8,
}

impl Model for Interlocking {
    ghost use Rattle.std.specs.Coded.{codes};
    ghost use Rattle.ssi_identities.specs.contracts.rule.BodyItem as body_item;
    ghost use Rattle.ssi_identities.specs.contracts.rule.CondItem as cond_item;
    ghost use Rattle.ssi_cycle.specs.Cores.{Core};
    ghost use Rattle.ssi_cycle.specs.Invariants.{IsCoreInvariant};

    ghost Value = { Core };

    ghost coded = { Prim.hlevel (codes, cond_item.the_row.coded, body_item.the_row.coded) };

    ghost view = { λ core. record {
      plan = core.image;
      world = record { state = core.state; waiting = core.waiting.items; slot = core.slot };
      before = core.before;
    } };

    ghost invariant = { λ core. IsCoreInvariant core.image core.state core.before core.has_acted core.waiting.items core.slot };
}

impl Interlocking {
    /// The interlocking of a layout at its start, in which slot 0 comes next. It takes all the memory that it ever needs.
    pub fn begin(alloc: Global, image: Image) -> Result<Interlocking, OutOfMemory>
        ensures { IfOk result (λ core. core ≡ core_of image) }
    {
        let counts = image.counts();
        let state = State::start(alloc, &counts)?;
        let before = State::start(alloc, &counts)?;
        Ok(Interlocking {
            image,
            state,
            before,
            has_acted: false,
            waiting: ArrayVec::new(),
            slot: 0,
        })
    }

    /// Puts a request, by its number, on a panel; there is panel 0. Where 64 requests wait already it answers `Full`, and nothing changes.
    pub fn put(&mut self, panel: u8, request: u16) -> Result<(), Full>
        requires panel { panel ≡ 0 }
        requires there { request < length self.old.plan.requests }
        ensures event { self.new ≡ after_event_on self.old (Put request) }
        ensures full { IsErr result ↔ IsTrue (is_full self.old.world.waiting) }
    {
        put_behind(&mut self.waiting, request)
    }

    /// The command telegram of the slot that comes next; none where no module has the slot's number for its address. It is that of the state now, before the
    /// report is taken in.
    pub fn output(&self) -> Option<[u8; 4]>
        ensures { result ≡ output_in self.now.plan self.now.world.slot self.now.world.state }
    {
        output(&self.image, self.slot, &self.state)
    }

    /// Makes the minor cycle of the slot that comes next, with the four bytes that arrived in it, if any did: takes them in, lets the slot's statements act, and
    /// serves the oldest request that waits.
    pub fn minor_cycle(&mut self, report: Option<[u8; 4]>) -> Did
        ensures event { self.new ≡ after_event_on self.old (Minor report) }
        ensures taken { result.taken ≡ taken_in self.old.plan self.old.world }
    {
        note(&mut self.before, &self.state, self.has_acted);
        let (has_acted, taken) = act(
            &self.image,
            self.slot,
            report,
            &mut self.waiting,
            &mut self.state,
        );
        self.has_acted = has_acted;
        self.slot = (self.slot + 1) % SLOTS;
        Did { taken }
    }

    /// The value of each fact, by its number.
    pub fn state(&self) -> &State
        ensures state { result.now ≡ self.now.world.state }
        ensures whole { IsStateOf (counts_of self.now.plan) result.now }
    {
        &self.state
    }

    /// The values before the last minor cycle, or at the start where there was none.
    pub fn before(&self) -> &State
        ensures state { result.now ≡ self.now.before }
        ensures whole { IsStateOf (counts_of self.now.plan) result.now }
    {
        &self.before
    }

    /// The first fact at or past `from` whose value differs from the one before the last minor cycle, with its value now; none where none differs. It costs
    /// nothing where nothing acted.
    #[inline(always)]
    pub fn next_change(&self, from: u16) -> Option<(u16, bool)>
        ensures change { IsNextChange self.now.before self.now.world.state from result }
        ensures whole { IsStateOf (counts_of self.now.plan) self.now.world.state }
        ensures limits { IsWithinLimits (counts_of self.now.plan) }
    {
        if self.has_acted {
            self.state.next_change(&self.before, from)
        } else {
            None
        }
    }

    /// The slot that comes next, 0 to 63.
    pub fn slot(&self) -> u8
        ensures slot { result ≡ self.now.world.slot }
        ensures within { result < 64 }
    {
        self.slot
    }

    /// The image of the layout.
    pub fn image(&self) -> &Image
        ensures { result.now ≡ self.now.plan }
    {
        &self.image
    }
}
