// The widest kind of line that there can be, type code 26.
ghost use Rattle.images_tests.specs.Wide.{wide, decoded, keeps, payload};
ghost use Rattle.std.proofs.Common.{arith};
ghost use Rattle.images_tests.specs.WideBytes.{length-payload, bytes-payload, decoded-payload};
ghost use Rattle.lines.proofs.Payloads.{read_back, read_only};

use lines::numbers::{read_two, write_two};
use lines::traits::Coded;

// Four numbers in 26 bytes. They keep their rule where first <= second <= third <= CEILING and fourth <= 9,999.
#[derive(Clone, Copy)]
pub struct WideLine {
    pub first: u64,
    pub second: u64,
    pub third: u64,
    pub fourth: u16,
}

const CODE: u8 = 26;

const CEILING: u64 = 1_000_000_000_000_000_000;

impl Coded for WideLine {
    ghost coding = { wide };

    ghost lawful = { record {
      code_byte = omega arith;
      width_least = omega arith;
      width_most = omega arith;
      long = length-payload;
      bytes = bytes-payload;
      reads_back = λ w k. read_back decoded keeps payload w (decoded-payload w k) k;
      reads_only = read_only decoded keeps payload;
    } };

    fn type_code() -> u8 {
        CODE
    }

    fn width() -> usize {
        26
    }

    fn keeps_rule(&self) -> bool {
        self.first <= self.second
            && self.second <= self.third
            && self.third <= CEILING
            && self.fourth <= 9_999
    }

    fn write_payload(&self, out: &mut [u8]) -> Option<usize> {
        if out.len() < 26 {
            return None;
        }
        // There is room for both parts.
        let _ = write_two(self.first, self.second, out);
        let _ = write_two(self.third, self.fourth, &mut out[16..]);
        Some(26)
    }

    fn read_payload(bytes: &[u8]) -> Option<WideLine> {
        let (front, back) = bytes.split_at_checked(16)?;
        let (first, second) = read_two(front)?;
        let (third, fourth) = read_two(back)?;
        WideLine {
            first,
            second,
            third,
            fourth,
        }
        .kept()
    }
}
