// A law of desks that were opened.
ghost use Rattle.desk_run.specs.Opened.{RunsBegin};

use coder_api::Coder;

/// Law: none of the items of seats that have seen nothing is at work.
pub fn runs_begin<C: Coder>()
    ensures { RunsBegin C }
{}
