// A source is read to its end.
ghost use Rattle.std.specs.Prelude.{◌⊎◌, IfOk, IsErrOf};
ghost use Rattle.ssi_base.specs.Faults.{Rose, GoesOn};
ghost use Rattle.ssi_base.specs.Streams.{ReadsToEnd, GivesPast, GivesWithin};

use crate::outside::{Failed, Source};
use std::alloc::Global;
use thiserror::Error;

/// Why a source could not be read to its end.
#[derive(Debug, Drop, Error)]
pub enum ReadAll {
    /// The source failed.
    #[error("the input could not be read")]
    Fault,
    /// The source gave more bytes than the limit.
    #[error("the input is too large")]
    TooLarge,
    /// No memory was left.
    #[error("no memory is left for the input")]
    Memory,
}

/// How many bytes are asked for at a time.
const CHUNK: usize = 65_536;

/// Reads all bytes up to the end of the input, at most `limit` of them. After an error some bytes
/// may have been read; `TooLarge` comes at the first piece that passes the limit, and nothing is
/// read after it.
pub fn read_all<S: Source>(alloc: Global, source: &mut S, limit: usize) -> Result<Vec<u8>, ReadAll>
    ensures ok { IfOk result (λ bytes.
        ReadsToEnd (S.left source.old) (S.left source.new) limit bytes.items) }
    ensures too_large { IsErrOf result ReadAll.TooLarge →
        GivesPast (S.left source.old) (S.left source.new) limit }
    ensures fault { IsErrOf result ReadAll.Fault →
        Rose (S.faults source.old) (S.faults source.new) }

    // Only `TooLarge` says that there was a byte past the limit.
    ensures within { IsErrOf result ReadAll.Fault ⊎ IsErrOf result ReadAll.Memory →
        GivesWithin (S.left source.old) (S.left source.new) limit }
    ensures goes_on { GoesOn (S.faults source.old) (S.faults source.new) }
{
    let mut bytes = Vec::new(alloc);
    let mut chunk = [0u8; CHUNK];
    'reads: loop {
        let count = match source.read(&mut chunk) {
            Ok(count) => count,
            Err(Failed) => return Err(ReadAll::Fault),
        };
        if count == 0 {
            return Ok(bytes);
        }
        if limit - bytes.len() < count {
            return Err(ReadAll::TooLarge);
        }
        if bytes.extend_from_slice(&chunk[..count]).is_err() {
            return Err(ReadAll::Memory);
        }
    }
}
