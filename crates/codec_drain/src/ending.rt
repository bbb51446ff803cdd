// References that end.
ghost use Rattle.std.specs.Prelude.{◌≡◌, ◌++◌, List, map};
ghost use Rattle.codec_media.specs.Holding.{pair_of};
ghost use Rattle.codec_model.specs.declared.entry.Pair.{Pair};
ghost use Rattle.codec_model.specs.Held.{in_order};
ghost use Rattle.codec_drain.specs.Drains.{AreLive, Ends};

use wc_base::By;
use wc_pool::{MediaRef, Pool, RefPool};

/// Ends these references by an entry of the codec with this number, one after another.
pub(crate) fn end_all(pool: &mut Pool, codec: u32, place: u64, media: Vec<MediaRef>)
    requires { AreLive pool.old (map pair_of media.items) }
    ensures ends { Ends codec (map pair_of media.items) pool.old pool.new }
    ensures others { (ps : List Pair) → AreLive pool.old (map pair_of media.items ++ ps)
        → AreLive pool.new ps }
{
    for r in media {
        pool.end(By::Codec { codec, place }, r);
    }
}

/// Ends this reference, if there is one.
pub(crate) fn end_one(pool: &mut Pool, codec: u32, place: u64, media: Option<MediaRef>)
    requires { AreLive pool.old (map pair_of (in_order media)) }
    ensures ends { Ends codec (map pair_of (in_order media)) pool.old pool.new }
    ensures others { (ps : List Pair) → AreLive pool.old (map pair_of (in_order media) ++ ps)
        → AreLive pool.new ps }
{
    match media {
        Some(r) => {
            pool.end(By::Codec { codec, place }, r);
        }
        None => {}
    }
}
