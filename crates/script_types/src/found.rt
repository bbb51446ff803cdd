// What names are found to name.
use crate::{Kind, VariableKind};

/// A codec, by its number in the script, and its kind.
#[derive(Clone, Copy, Debug, PartialEq, Eq)]
pub struct FoundCodec {
    pub number: u32,
    pub kind: Kind,
}

/// A variable, by the number of the step that defines it, and what it holds.
#[derive(Clone, Copy, Debug, PartialEq, Eq)]
pub struct FoundVariable {
    pub step: u32,
    pub kind: VariableKind,
}
