//! The steps of a script: as they are written, and as they act on a layout.

use ssi_base::Place;
use ssi_lexer::Token;
use ssi_trackside::Event;

/// What happens at the trackside, by the word of its step.
#[derive(Clone, Copy, Debug, PartialEq, Eq)]
pub enum EventWord {
    /// A train occupies a track.
    Occupy,
    /// A track becomes clear.
    Clear,
    /// A signal's lamp fails.
    Fail,
    /// A signal's lamp is mended.
    Mend,
    /// The machine of points jams.
    Jam,
    /// The machine of points is freed.
    Unjam,
}

/// What becomes of a module or of its next telegrams, by the word of its step.
#[derive(Clone, Copy, Debug, PartialEq, Eq)]
pub enum ModuleWord {
    /// The module dies.
    Dead,
    /// The module lives again.
    Live,
    /// Its next report is lost.
    Lose,
    /// Its next command and its next report are lost.
    Drop,
}

/// A step as it is written. What it names is the token that tells it.
#[derive(Clone, Copy, Debug, PartialEq, Eq)]
pub enum StepTree {
    /// A request is put on a panel.
    Panel {
        panel: u8,
        request: Token,
    },
    /// So many minor cycles are made, at least one.
    Cycle {
        count: u32,
        token: Token,
    },
    /// Something happens to an identity.
    Happen {
        word: EventWord,
        name: Token,
    },
    /// Something becomes of the module with an address, below 10,000,000.
    Module {
        word: ModuleWord,
        address: u32,
        token: Token,
    },
    /// These four bytes arrive in place of the next report of the module with an address, below 10,000,000.
    Raw {
        address: u32,
        token: Token,
        bytes: [u8; 4],
    },
}

/// A step of a script, as it acts on a layout.
#[derive(Clone, Copy, Debug, PartialEq, Eq)]
pub enum ScriptStep {
    /// A request, by its number, is put on a panel.
    Panel { panel: u8, request: u16 },
    /// So many minor cycles are made, at least one.
    Cycle { count: u32 },
    /// An event happens at the module with an address, 1 to 63, and a kind, as in the kinds of `ssi_trackside`.
    Happen { address: u8, kind: u8, event: Event },
    /// In the next exchange with an address these four bytes arrive in place of the report.
    Raw { address: u8, bytes: [u8; 4] },
    /// In the next exchange with an address no report arrives.
    Lose { address: u8 },
    /// In the next exchange with an address neither the command nor the report passes.
    Drop { address: u8 },
}

/// What the next exchange with an address does to its telegrams.
#[derive(Clone, Copy, Debug, PartialEq, Eq)]
pub enum Mark {
    /// These four bytes arrive in place of the report.
    Raw([u8; 4]),
    /// No report arrives.
    Lose,
    /// Neither the command nor the report passes.
    Drop,
}

/// The fault of a step, which does nothing then.
#[derive(Clone, Copy, Debug, PartialEq, Eq)]
pub struct ScriptFault {
    /// 1 where the tokens are no step, 2 where a name isn't declared or no module has the address, 3 where a name's first letter is of another kind, 4 where the
    /// script would make more than 1,000,000 minor cycles.
    pub code: u8,
    /// How many bytes of the text stand before the token that has the fault; 0 for code 1.
    pub token_start: u32,
    /// The length of that token in bytes; 0 for code 1.
    pub token_len: u32,
    /// The place of that token; for code 1, of the first token that shows that no step comes, or just past the last byte where more is needed.
    pub place: Place,
}

/// The code of tokens that are no step.
pub const MISSPELLED: u8 = 1;

/// The code of a name that isn't declared, or an address that no module has.
pub const UNKNOWN: u8 = 2;

/// The code of a name whose first letter is of another kind.
pub const WRONG_KIND: u8 = 3;

/// The code of a count that makes too many minor cycles.
pub const TOO_MANY_CYCLES: u8 = 4;
