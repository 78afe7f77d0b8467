//! The files whose entries have conditions and bodies.

/// A file whose entries have conditions or bodies. It tells what these may name.
#[derive(Clone, Copy)]
pub enum RuleFile {
    /// PRR.
    Requests,
    /// PFM: when points are free to move.
    Moves,
    /// FOP.
    Statements,
    /// OPT.
    Outputs,
    /// IPT.
    Inputs,
}
