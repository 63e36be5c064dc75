// The lines of an image one by one.
ghost use Rattle.std.specs.Iterator.{YieldsFirst, item_count};
ghost use Rattle.images.specs.Walks.{lines_left};

use crate::reader::Image;
use lines::traits::Coded;
use records::image_lines::ImageLine;
use std::marker::PhantomData;

// The lines of the kind C of an image that are still to come, from the first on in the order in which they stand there.
#[derive(Clone, Copy)]
pub struct Lines<'a, C> {
    pub(crate) image: Image<'a>,
    pub(crate) passed: usize,
    pub(crate) kind: PhantomData<C>,
}

impl<'a, C: Coded> Iterator for Lines<'a, C> {
    type Item = ImageLine<C>;

    ghost next_gives = { YieldsFirst (lines_left C.Coded.coding) };

    ghost remaining = { item_count (lines_left C.Coded.coding) };

    fn next(&mut self) -> Option<ImageLine<C>> {
        if self.passed == usize::from(self.image.count) {
            return None;
        }
        let line = self.image.line::<C>(self.passed)?;
        self.passed += 1;
        Some(line)
    }
}
