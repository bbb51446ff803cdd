//! What codecs' histories owe elsewhere: which boxes go out and come back, and which calls of callers they keep.
#![tactic(auto)]
