// Unsigned numbers in memory, the lowest byte first.
ghost use Rattle.std.specs.Prelude.{◌≡◌, ◌≢◌, ◌≤◌, ℕ, List, None, ◌++◌, length, take, drop, Option as Perhaps};
ghost use Rattle.std.proofs.Common.{arith};
ghost use Rattle.lines.specs.Bytes.{le, whole, put, room, both};
ghost use Rattle.lines.specs.Numbers.{length-le, whole_other};

// An unsigned number that takes a fixed number of bytes. Each type has an impl of its own, since the library converts each by methods of that type alone.
pub trait Number: Copy {
    ghost WIDTH: { ℕ };

    ghost writing: { Self → List ℕ };

    ghost reading: { List ℕ → Perhaps Self };

    const WIDTH: usize;

    // The number that `bytes` hold; none, if there are more or fewer than its width.
    fn read(bytes: &[u8]) -> Option<Self>
        ensures { result ≡ reading bytes.now };

    // Writes the number at the front of `out` and answers its width; none, with nothing written, where it does not fit.
    fn write(self, out: &mut [u8]) -> Option<usize>
        ensures answer { result ≡ room (writing self) out.old }
        ensures after { out.new ≡ put (writing self) out.old };

    ghost small: { WIDTH ≤ 8 };

    ghost long: { (n : Self) → length (writing n) ≡ WIDTH };

    ghost exact: { (bs : List ℕ) → length bs ≢ WIDTH → reading bs ≡ None };
}

impl Number for u16 {
    ghost WIDTH = { 2 };

    ghost writing = { le 2 };

    ghost reading = { whole 2 };

    ghost small = { omega arith };

    ghost long = { length-le 2 };

    ghost exact = { whole_other 2 };

    const WIDTH: usize = 2;

    #[tactic(auto, using(crate::proofs::LittleEndian::number_2))]
    fn read(bytes: &[u8]) -> Option<u16> {
        bytes.try_into().ok().map(u16::from_le_bytes)
    }

    #[tactic(auto, using(crate::proofs::LittleEndian::le_2))]
    fn write(self, out: &mut [u8]) -> Option<usize> {
        write_front(&u16::to_le_bytes(self), out)
    }
}

impl Number for u32 {
    ghost WIDTH = { 4 };

    ghost writing = { le 4 };

    ghost reading = { whole 4 };

    ghost small = { omega arith };

    ghost long = { length-le 4 };

    ghost exact = { whole_other 4 };

    const WIDTH: usize = 4;

    #[tactic(auto, using(crate::proofs::LittleEndian::number_4))]
    fn read(bytes: &[u8]) -> Option<u32> {
        bytes.try_into().ok().map(u32::from_le_bytes)
    }

    #[tactic(auto, using(crate::proofs::LittleEndian::le_4))]
    fn write(self, out: &mut [u8]) -> Option<usize> {
        write_front(&u32::to_le_bytes(self), out)
    }
}

impl Number for u64 {
    ghost WIDTH = { 8 };

    ghost writing = { le 8 };

    ghost reading = { whole 8 };

    ghost small = { omega arith };

    ghost long = { length-le 8 };

    ghost exact = { whole_other 8 };

    const WIDTH: usize = 8;

    #[tactic(auto, using(crate::proofs::LittleEndian::number_8))]
    fn read(bytes: &[u8]) -> Option<u64> {
        bytes.try_into().ok().map(u64::from_le_bytes)
    }

    #[tactic(auto, using(crate::proofs::LittleEndian::le_8))]
    fn write(self, out: &mut [u8]) -> Option<usize> {
        write_front(&u64::to_le_bytes(self), out)
    }
}

// Writes bytes at the front of `out` and answers how many; none, with nothing written, where they do not fit.
pub fn write_front(bytes: &[u8], out: &mut [u8]) -> Option<usize>
    ensures answer { result ≡ room bytes.now out.old }
    ensures after { out.new ≡ put bytes.now out.old }
{
    if out.len() < bytes.len() {
        return None;
    }
    out[0..bytes.len()].copy_from_slice(bytes);
    Some(bytes.len())
}

// Writes two numbers, one behind the other, at the front of `out` and answers how many bytes they take; none, with nothing written, where they do not fit.
pub fn write_two<A: Number, B: Number>(first: A, second: B, out: &mut [u8]) -> Option<usize>
    ensures answer { result ≡ room (A.writing first ++ B.writing second) out.old }
    ensures after { out.new ≡ put (A.writing first ++ B.writing second) out.old }
{
    if out.len() < A::WIDTH + B::WIDTH {
        return None;
    }
    let len = first.write(out)?;
    Some(len + second.write(&mut out[len..])?)
}

// The two numbers that `bytes` hold, one behind the other; none, if there are more bytes or fewer.
pub fn read_two<A: Number, B: Number>(bytes: &[u8]) -> Option<(A, B)>
    ensures { result ≡ both (A.reading (take A.WIDTH bytes.now)) (B.reading (drop A.WIDTH bytes.now)) }
{
    let (first, second) = bytes.split_at_checked(A::WIDTH)?;
    Some((A::read(first)?, B::read(second)?))
}
