//! Why no tree was read.

use ssi_base::Place;
use ssi_lexer::LexFault;
use thiserror::Error;

/// Why no tree was read.
#[derive(Debug, Drop, Error)]
pub enum ReadFault {
    /// The text goes on with no token where one is needed.
    #[error("no token")]
    Lex(LexFault),
    /// The first place where no spelling begins with the tokens so far.
    #[error("no spelling")]
    Syntax(Place),
    /// The group or the choice that opens a level more than may lie in one another.
    #[error("too deep")]
    TooDeep(Place),
    /// Memory ran out.
    #[error("out of memory")]
    Memory,
}
