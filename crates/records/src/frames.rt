// What every record is: its length in bytes, counting all, and its kind, in two bytes each; then a body.
ghost use Rattle.std.specs.Prelude.{◌≡◌, ◌≤◌, Bool, length};
ghost use Rattle.lines.specs.Bytes.{put, room};
ghost use Rattle.records.specs.Framing.{Layout, LawfulLayout, OneReading, bytes_of, read, record_length};
ghost use Rattle.records.specs.Kinds.{kind_number};

use lines::numbers::{read_two, write_two};

// The kinds of record.
#[derive(Clone, Copy, PartialEq, Eq)]
pub enum Kind {
    Head,
    Line,
    End,
    Command,
    Mark,
}

impl From<Kind> for u16 {
    ghost from_gives = { λ kind n. n ≡ kind_number kind };

    fn from(kind: Kind) -> u16 {
        match kind {
            Kind::Head => 1,
            Kind::Line => 2,
            Kind::End => 3,
            Kind::Command => 4,
            Kind::Mark => 5,
        }
    }
}

// A kind of record with the values that it holds and their bodies.
pub trait Record {
    type Value;

    ghost layout: { Layout Self.Value };

    // Which values may be written. That its numbers fit their bytes holds of every value of the type.
    ghost allowed: { Self.Value → Bool };

    // Its number; and it owes what every layout does.
    fn kind() -> Kind
        ensures number { kind_number result ≡ layout.kind }
        ensures lawful { LawfulLayout layout };

    // How many bytes the body of a value has.
    fn body_len(value: &Self::Value) -> usize
        ensures len { result ≡ length (layout.body value.now) }
        ensures short { result ≤ 28 }
        ensures fits { layout.fits value.now ≡ allowed value.now };

    // Writes that body at the front of `out` and answers its length; none, with nothing written, where it does not fit.
    fn write_body(value: &Self::Value, out: &mut [u8]) -> Option<usize>
        ensures answer { result ≡ room (layout.body value.now) out.old }
        ensures after { out.new ≡ put (layout.body value.now) out.old };

    // The value whose body is `bytes`, all of them, if there is one.
    fn read_body(bytes: &[u8]) -> Option<Self::Value>
        ensures { result ≡ layout.reading bytes.now };
}

// Writes the record of a value at the front of `out` and answers its length; none, with nothing written, where it does not fit.
pub fn write_record<R: Record>(out: &mut [u8], value: &R::Value) -> Option<usize>
    ensures answer { result ≡ room (bytes_of R.layout value.now) out.old }
    ensures after { out.new ≡ put (bytes_of R.layout value.now) out.old }
    ensures fits { R.layout.fits value.now ≡ R.allowed value.now }
{
    let len = 4 + R::body_len(value);
    if out.len() < len {
        return None;
    }
    // There is room for both parts; and no record is longer than 32 bytes, so that its length fits.
    let _ = write_two(len as u16, u16::from(R::kind()), out);
    let _ = R::write_body(value, &mut out[4..]);
    Some(len)
}

// The value whose record `bytes` begin with, and the record's length.
pub fn read_record<R: Record>(bytes: &[u8]) -> Option<(R::Value, usize)>
    ensures answer { result ≡ read R.layout bytes.now }
    ensures one { OneReading R.layout bytes.now result }
{
    let len = record_len(bytes, R::kind())?;
    let value = R::read_body(&bytes[4..len])?;
    Some((value, len))
}

// The length of the record of that kind that `bytes` begin with.
fn record_len(bytes: &[u8], kind: Kind) -> Option<usize>
    ensures { result ≡ record_length (kind_number kind) bytes.now }
{
    let (len, found) = read_two::<u16, u16>(bytes.get(0..4)?)?;
    let len = usize::from(len);
    (4 <= len && len <= bytes.len() && found == u16::from(kind)).then_some(len)
}
