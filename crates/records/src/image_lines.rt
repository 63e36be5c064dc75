// A line in an image, as a value and as the body of its record.
ghost use Rattle.std.specs.Prelude.{◌≡◌};
ghost use Rattle.lines.specs.Bytes.{put, room};
ghost use Rattle.records.specs.ImageLines.{line_in, line_body};

use lines::numbers::Number;
use lines::traits::Coded;

// A line with its number.
#[derive(Clone, Copy)]
pub struct ImageLine<L> {
    pub number: u16,
    pub line: L,
}

impl<L: Coded> ImageLine<L> {
    // Writes the body at the front of `out` and answers its length; none, with nothing written, where it does not fit.
    pub(crate) fn write_body(&self, out: &mut [u8]) -> Option<usize>
        ensures answer { result ≡ room (line_body L.Coded.coding self.now) out.old }
        ensures after { out.new ≡ put (line_body L.Coded.coding self.now) out.old }
    {
        let len = 2 + L::width();
        if out.len() < len {
            return None;
        }
        // There is room for both parts.
        let _ = self.number.write(out);
        let _ = self.line.write_payload(&mut out[2..]);
        Some(len)
    }

    // The line whose body is `bytes`, all of them, if there is one.
    pub fn of_body(bytes: &[u8]) -> Option<ImageLine<L>>
        ensures { result ≡ line_in L.Coded.coding bytes.now }
    {
        if bytes.len() < 2 {
            return None;
        }
        let number = u16::read(&bytes[0..2])?;
        let line = L::read_payload(&bytes[2..])?;
        Some(ImageLine { number, line })
    }
}
