// What an image begins with, as a value and as the body of its record.
ghost use Rattle.std.specs.Prelude.{◌≡◌, true};
ghost use Rattle.records.specs.Heads.{mode_code, mode_or_not, head_body, head_in, head_fits};

use lines::numbers::Number;

// Whether an image has every line, or only those that changed since the one before.
#[derive(Clone, Copy, PartialEq, Eq)]
pub enum Mode {
    Full,
    Partial,
}

// A number that is the code of no mode.
#[derive(Clone, Copy, PartialEq, Eq)]
pub struct UnknownMode {
    pub code: u8,
}

impl From<Mode> for u8 {
    ghost from_gives = { λ mode n. n ≡ mode_code mode };

    fn from(mode: Mode) -> u8 {
        match mode {
            Mode::Full => 0,
            Mode::Partial => 1,
        }
    }
}

impl TryFrom<u8> for Mode {
    type Error = UnknownMode;

    ghost try_from_gives = { λ code r. r ≡ mode_or_not code };

    fn try_from(code: u8) -> Result<Mode, UnknownMode> {
        match code {
            0 => Ok(Mode::Full),
            1 => Ok(Mode::Partial),
            _ => Err(UnknownMode { code }),
        }
    }
}

// The type code of the image's lines, its mode, the number of its lines, and the points that it is from and at.
#[derive(Clone, Copy)]
pub struct Head {
    pub code: u8,
    pub mode: Mode,
    pub n: u16,
    pub from: u32,
    pub point: u32,
}

impl Head {
    pub fn body(self) -> [u8; 12]
        ensures bytes { result ≡ head_body self }
        ensures fits { head_fits self ≡ true }
    {
        let mut body = [0; 12];
        body[0] = self.code;
        body[1] = u8::from(self.mode);
        body[2..4].copy_from_slice(&self.n.to_le_bytes());
        body[4..8].copy_from_slice(&self.from.to_le_bytes());
        body[8..12].copy_from_slice(&self.point.to_le_bytes());
        body
    }

    // The head whose body is `bytes`, all of them, if there is one.
    pub fn of_body(bytes: &[u8]) -> Option<Head>
        ensures { result ≡ head_in bytes.now }
    {
        if bytes.len() != 12 {
            return None;
        }
        Some(Head {
            code: bytes[0],
            mode: Mode::try_from(bytes[1]).ok()?,
            n: u16::read(&bytes[2..4])?,
            from: u32::read(&bytes[4..8])?,
            point: u32::read(&bytes[8..12])?,
        })
    }
}
