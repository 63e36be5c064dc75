// The lines of two images as the lines of one.
ghost use Rattle.std.specs.Iterator.{YieldsFirst, item_count};
ghost use Rattle.joins.specs.Merging.{merged_left};

use images::line_walk::Lines;
use lines::traits::Coded;
use records::image_lines::ImageLine;

// The lines of either image that are still to come, in the order of their numbers; of two with the same number the later image's.
#[derive(Clone, Copy)]
pub(crate) struct Merged<'a, C> {
    pub(crate) earlier: Lines<'a, C>,
    pub(crate) later: Lines<'a, C>,
}

impl<'a, C: Coded> Iterator for Merged<'a, C> {
    type Item = ImageLine<C>;

    ghost next_gives = { YieldsFirst (merged_left C.Coded.coding) };

    ghost remaining = { item_count (merged_left C.Coded.coding) };

    fn next(&mut self) -> Option<ImageLine<C>> {
        let mut earlier = self.earlier;
        let mut later = self.later;
        match (earlier.next(), later.next()) {
            (None, None) => None,
            (Some(x), None) => {
                self.earlier = earlier;
                Some(x)
            }
            (None, Some(y)) => {
                self.later = later;
                Some(y)
            }
            (Some(x), Some(y)) => {
                if x.number < y.number {
                    self.earlier = earlier;
                    return Some(x);
                }
                if x.number == y.number {
                    self.earlier = earlier;
                }
                self.later = later;
                Some(y)
            }
        }
    }
}
