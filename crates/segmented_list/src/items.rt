// The items of segments.
ghost use Rattle.std.specs.Prelude.{◌≡◌, [], ◌∷◌, IfNone, IfSome};
ghost use Rattle.segmented_list.specs.Segments.{joined};

use crate::segment::Segment;
use std::marker::Model;

/// The items of segments, taken one after another. A contract sees those that are left.
#[derive(Drop)]
pub struct Items<'a, T> {
    here: &'a [T],
    behind: &'a [Segment<T>],
}

impl<'a, T> Model for Items<'a, T> {
    ghost use Rattle.std.specs.Prelude.{List, ◌++◌};
    ghost use Rattle.segmented_list.specs.Segments.{joined};

    ghost Value = { List T };

    ghost view = { λ i. i.here.now ++ joined i.behind.now };
}

impl<'a, T> Items<'a, T> {
    /// The items of these segments.
    pub fn of(segments: &'a [Segment<T>]) -> Items<'a, T>
        ensures { result ≡ joined segments.now }
    {
        Items {
            here: &[],
            behind: segments,
        }
    }

    /// Takes the first item that is left; none exactly where none is left.
    pub fn next(&mut self) -> Option<&'a T>
        ensures some { IfSome result (λ x. self.old ≡ x.now ∷ self.new) }
        ensures none { IfNone result (self.old ≡ []) }
        ensures last { IfNone result (self.new ≡ []) }
    {
        while let [] = self.here {
            match self.behind {
                [] => return None,
                [segment, more @ ..] => {
                    self.here = segment.items();
                    self.behind = more;
                }
            }
        }
        match self.here {
            [] => None,
            [first, more @ ..] => {
                self.here = more;
                Some(first)
            }
        }
    }
}
