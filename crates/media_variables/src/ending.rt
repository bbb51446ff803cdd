// References that codecs held, and let go.
ghost use Rattle.std.specs.Prelude.{◌≡◌, ◌++◌, [], ◌∷◌, map};
ghost use Rattle.codec_model.specs.Held.{in_order};
ghost use Rattle.wc_pool.specs.Pools.{IsLive, KeepsOthers};
ghost use Rattle.media_variables.specs.Held.{pair_of, ends_behind, AreApart};

use wc_base::By;
use wc_pool::{MediaRef, Pool, RefPool};

/// Ends a reference, and lets its bytes go.
fn end_reference(pool: &mut Pool, by: By, r: MediaRef)
    requires { IsLive pool.old r }
    ensures ended { pool.new ≡ pool.old ++ ends_behind by pool.old (pair_of r ∷ []) }
    ensures kept { KeepsOthers r.number (IsLive pool.old) (IsLive pool.new) }
{
    pool.end(by, r);
}

/// Ends these references, one after another.
pub(crate) fn end_each(pool: &mut Pool, by: By, media: Vec<MediaRef>)
    requires { AreApart pool.old [] (map pair_of media.items) }
    ensures { pool.new ≡ pool.old ++ ends_behind by pool.old (map pair_of media.items) }
{
    for r in media {
        end_reference(pool, by, r);
    }
}

/// Ends this reference, if there is one.
pub(crate) fn end_if(pool: &mut Pool, by: By, media: Option<MediaRef>)
    requires { AreApart pool.old [] (map pair_of (in_order media)) }
    ensures { pool.new ≡ pool.old ++ ends_behind by pool.old (map pair_of (in_order media)) }
{
    match media {
        Some(r) => end_reference(pool, by, r),
        None => (),
    }
}
