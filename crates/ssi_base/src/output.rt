// Whole pieces are written.
ghost use Rattle.std.specs.Prelude.{◌≡◌, ◌++◌, [], IsOk};
ghost use Rattle.ssi_base.specs.Streams.{Writes};

use crate::outside::{Failed, Sink};

/// Writes the whole piece. After `Failed` a part of it was written that isn't the whole. For an
/// empty piece the sink isn't called.
pub fn write_all<K: Sink>(sink: &mut K, piece: &[u8]) -> Result<(), Failed>
    ensures written { Writes (K.written sink.old) (K.written sink.new)
        (K.faults sink.old) (K.faults sink.new) piece.now result }
    ensures empty { piece.now ≡ [] → IsOk result }
    ensures untouched { piece.now ≡ [] → sink.new ≡ sink.old }
{
    let mut done = 0;
    while done < piece.len() {
        done += sink.write(&piece[done..])?;
    }
    Ok(())
}

/// Writes two pieces, one after another.
#[tactic(auto, using(crate::proofs::Writing::joins))]
pub fn write_two<K: Sink>(sink: &mut K, first: &[u8], second: &[u8]) -> Result<(), Failed>
    ensures { Writes (K.written sink.old) (K.written sink.new) (K.faults sink.old) (K.faults sink.new)
        (first.now ++ second.now) result }
{
    write_all(sink, first)?;
    write_all(sink, second)
}

/// Writes three pieces, one after another.
#[tactic(auto, using(crate::proofs::Writing::joins))]
pub fn write_three<K: Sink>(
    sink: &mut K,
    first: &[u8],
    second: &[u8],
    third: &[u8],
) -> Result<(), Failed>
    ensures { Writes (K.written sink.old) (K.written sink.new) (K.faults sink.old) (K.faults sink.new)
        (first.now ++ second.now ++ third.now) result }
{
    write_all(sink, first)?;
    write_all(sink, second)?;
    write_all(sink, third)
}
