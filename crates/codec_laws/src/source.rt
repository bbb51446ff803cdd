// Where an output comes from.

/// Where an output comes from: the places of the call whose item gave it and of the configure to whose configuration it
/// belongs, and which of that configuration's outputs it is, from 0.
#[derive(Clone, Copy, Debug, PartialEq, Eq)]
pub struct Source {
    pub call: u64,
    pub configure: u64,
    pub index: u64,
}

/// An output that was shown, with the place of the turn that showed it.
#[derive(Clone, Copy, Debug, PartialEq, Eq)]
pub struct Output {
    pub source: Source,
    pub turn: u64,
}
