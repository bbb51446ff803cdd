// Laws of what polls may see.
ghost use Rattle.std.specs.Prelude.{ℕ};
ghost use Rattle.wc_base.specs.Views.{Log};
ghost use Rattle.codec_logs.specs.declared.event.Event.{Event};
ghost use Rattle.shared_codec.specs.Shared.{Shared};
ghost use Rattle.flush_promise.specs.declared.promise.FlushEnd.{FlushEnd};
ghost use Rattle.flush_future.specs.Polls.{BeginsWith, MayEndAs};

/// Law: who has seen a codec's log may see each end that one who has seen more of it may see.
pub fn ends_go_on()
    ensures { (s : Shared) (place : ℕ) (seen later : Log Event) (end : FlushEnd)
        → BeginsWith later seen → MayEndAs s place later end → MayEndAs s place seen end }
{}
