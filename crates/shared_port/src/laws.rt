//! Laws of ports.
ghost use Rattle.shared_port.specs.Accounts.{LastPassesAccount};

/// Law: where a pass has all 2^32 parts, what it and those that it took in posted is, each with its place, what they received
/// and what is left. What they received is the beginning of the line, so of each poster they received the first posts; and it is at
/// least as long as any of them knew it to be.
pub fn last_passes_account<M>()
    ensures { LastPassesAccount M }
{}
