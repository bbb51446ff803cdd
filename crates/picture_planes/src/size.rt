// The bytes of a picture.
ghost use Rattle.std.specs.Prelude.{◌≡◌, ◌≤◌, ◌^◌, IfSome, IfNone};
ghost use Rattle.picture_planes.specs.Planes.{picture_size};

use crate::plane::planes_of;
use wc_base::PictureShape;

/// The bytes of a picture's planes, one after another; none where they are more than 64 bits count.
pub fn picture_size(shape: &PictureShape) -> Option<usize>
    ensures some { IfSome result (λ n. n ≡ picture_size shape.now) }
    ensures none { IfNone result (2 ^ 64 ≤ picture_size shape.now) }
{
    let planes = planes_of(shape.format);
    let first = planes.first.size(shape.width, shape.height);
    let second = planes.second.size(shape.width, shape.height);
    let two = first.checked_add(second)?;
    match planes.third {
        Some(third) => two.checked_add(third.size(shape.width, shape.height)),
        None => Some(two),
    }
}
