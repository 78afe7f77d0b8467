//! The changed facts of a minor cycle.

ghost use Rattle.std.specs.Prelude.{◌≡◌, ◌<◌, true, false, codes, []};
ghost use Rattle.ssi_base.specs.Streams.{Writes};
ghost use Rattle.ssi_identities.specs.DataSets.{counts_of};
ghost use Rattle.ssi_identities.specs.Facts.{IsWithinLimits, fact_count_of};
ghost use Rattle.ssi_identities.specs.States.{IsStateOf};
ghost use Rattle.ssi_state.specs.Changes.{IsNextChange};
ghost use Rattle.ssi_script.specs.Lines.{changes_of, fact_at, fact_text};
ghost use Rattle.ssi_script.specs.WorkedChanges.{all_are, mixed, one_of_each};

use ssi_base::{Failed, Sink, write_two};
use ssi_cycle::Interlocking;
use ssi_identities::{FactKind, fact_of};
use ssi_image::Image;

/// Writes a fact with its value.
#[tactic(auto, using(ssi_base::proofs::Writing::joins))]
fn write_fact<K: Sink>(
    sink: &mut K,
    image: &Image,
    kind: FactKind,
    index: u16,
    value: bool,
) -> Result<(), Failed>
    ensures { Writes (K.written sink.old) (K.written sink.new) (K.faults sink.old) (K.faults sink.new)
        (fact_text image.now (record { kind = kind; index = index }) value) result }
{
    write_two(sink, b" ", image.name(kind.identity(), index))?;
    write_two(sink, b":", kind.word(value))
}

/// Writes a fact, by its number, with its value.
#[inline(never)]
fn write_numbered<K: Sink>(
    sink: &mut K,
    image: &Image,
    fact: u16,
    value: bool,
) -> Result<(), Failed>
    requires { fact < fact_count_of (counts_of image.now) }
    ensures { Writes (K.written sink.old) (K.written sink.new) (K.faults sink.old) (K.faults sink.new)
        (fact_text image.now (fact_at (counts_of image.now) fact) value) result }
{
    let (kind, index) = fact_of(&image.counts(), fact);
    write_fact(sink, image, kind, index, value)
}

/// Writes each fact whose value differs from the one before the last minor cycle, of which the first has been found.
pub fn write_changes<K: Sink>(
    sink: &mut K,
    core: &Interlocking,
    first: Option<(u16, bool)>,
) -> Result<(), Failed>
    requires first { IsNextChange core.now.before core.now.world.state 0 first }
    requires whole { IsStateOf (counts_of core.now.plan) core.now.world.state }
    requires limits { IsWithinLimits (counts_of core.now.plan) }
    ensures { Writes (K.written sink.old) (K.written sink.new) (K.faults sink.old) (K.faults sink.new)
        (changes_of core.now.plan core.now.before core.now.world.state) result }
{
    let mut from = 0;
    let mut next = first;
    'changes: while let Some((fact, value)) = next {
        write_numbered(sink, core.image(), fact, value)?;
        from = fact + 1;
        next = core.next_change(from);
    }
    Ok(())
}

/// The changes of one fact of each kind: to true, to false, and of some of them.
pub fn worked_changes()
    ensures to_true { changes_of one_of_each (all_are false) (all_are true)
        ≡ codes " P1:cr P1:dn P1:dr S1:lp T1:o R1:s R1:xa U1:l L1:s" }
    ensures to_false { changes_of one_of_each (all_are true) (all_are false)
        ≡ codes " P1:cn P1:xdn P1:xdr S1:xlp T1:c R1:xs R1:a U1:f L1:xs" }
    ensures some { changes_of one_of_each mixed (all_are true) ≡ codes " P1:cr P1:dr T1:o R1:xa" }
    ensures none { changes_of one_of_each mixed mixed ≡ [] }
{}
