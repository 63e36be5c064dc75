// A value for even numbers and one for odd ones.
ghost use Rattle.std.specs.Prelude.{◌≡◌};
ghost use Rattle.keepers.specs.Pairs.{both, part, with_part};

// What a cell keeps for two points at once, by whether the number of points passed is odd: whether commits named the line, or a line itself.
#[derive(Clone, Copy)]
pub struct Two<T> {
    pub even: T,
    pub odd: T,
}

impl<T: Copy> Two<T> {
    // The same for both.
    pub fn both(value: T) -> Two<T>
        ensures { result ≡ both value }
    {
        Two {
            even: value,
            odd: value,
        }
    }

    pub fn get(self, odd: bool) -> T
        ensures { result ≡ part self odd }
    {
        if odd { self.odd } else { self.even }
    }

    // The two with one of them replaced.
    pub fn with(self, odd: bool, value: T) -> Two<T>
        ensures { result ≡ with_part self odd value }
    {
        if odd {
            Two { odd: value, ..self }
        } else {
            Two {
                even: value,
                ..self
            }
        }
    }
}
