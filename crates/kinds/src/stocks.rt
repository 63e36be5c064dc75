// The stock line, type code 2.
ghost use Rattle.std.specs.Prelude.{◌≡◌, Some};
ghost use Rattle.lines.specs.Changing.{judged};
ghost use Rattle.kinds.specs.Stocks.{stock, stock_changed, keeps, more, less, decoded, payload, stock_changes, stock_change};
ghost use Rattle.std.proofs.Common.{arith};
ghost use Rattle.kinds.specs.StockBytes.{decoded-payload};
ghost use Rattle.lines.proofs.Payloads.{read_back, read_only, length_two, bytes_two};
ghost use Rattle.lines.proofs.Rules.{chosen_kept};

use lines::changes::{Change, UnknownKind};
use lines::faults::LineFault;
use lines::numbers::{read_two, write_two};
use lines::traits::{Coded, Line, judged};

// The pieces of one article. It keeps its rule where reserved <= on_hand <= CEILING.
#[derive(Clone, Copy, PartialEq, Eq)]
pub struct StockLine {
    pub on_hand: u32,
    pub reserved: u32,
}

// The byte that stands for the kind in an image.
const CODE: u8 = 2;

const CEILING: u32 = 10_000_000;

impl Coded for StockLine {
    ghost coding = { stock };

    ghost lawful = { record {
      code_byte = omega arith;
      width_least = omega arith;
      width_most = omega arith;
      long = λ s. length_two 4 4 s.on_hand s.reserved;
      bytes = λ s. bytes_two 4 4 s.on_hand s.reserved;
      reads_back = λ s k. read_back decoded keeps payload s (decoded-payload s k) k;
      reads_only = read_only decoded keeps payload;
    } };

    fn type_code() -> u8 {
        CODE
    }

    fn width() -> usize {
        8
    }

    fn keeps_rule(&self) -> bool {
        self.reserved <= self.on_hand && self.on_hand <= CEILING
    }

    fn write_payload(&self, out: &mut [u8]) -> Option<usize> {
        write_two(self.on_hand, self.reserved, out)
    }

    fn read_payload(bytes: &[u8]) -> Option<StockLine> {
        let (on_hand, reserved) = read_two(bytes)?;
        StockLine { on_hand, reserved }.kept()
    }
}

// The changes of a stock line, by their codes.
#[derive(Clone, Copy, PartialEq, Eq)]
pub enum StockChange {
    // 1: so many pieces more are on hand.
    Receive,
    // 2: so many more are reserved.
    Reserve,
    // 3: so many fewer are reserved.
    Release,
    // 4: so many fewer are on hand, and fewer are reserved.
    Ship,
}

impl TryFrom<u8> for StockChange {
    type Error = UnknownKind;

    ghost try_from_gives = { λ code r. r ≡ stock_change code };

    fn try_from(code: u8) -> Result<StockChange, UnknownKind> {
        match code {
            1 => Ok(StockChange::Receive),
            2 => Ok(StockChange::Reserve),
            3 => Ok(StockChange::Release),
            4 => Ok(StockChange::Ship),
            _ => Err(UnknownKind { code }),
        }
    }
}

impl StockLine {
    // The line with so many pieces more. A sum stops at the end of its type, which is as far above the ceiling as the true one.
    fn more(&self, on_hand: u32, reserved: u32) -> StockLine
        ensures { judged keeps (Some result) ≡ judged keeps (more self.now on_hand reserved) }
    {
        StockLine {
            on_hand: self.on_hand.saturating_add(on_hand),
            reserved: self.reserved.saturating_add(reserved),
        }
    }

    // The line with so many pieces fewer; none, where a number would be below zero.
    fn less(&self, on_hand: u32, reserved: u32) -> Option<StockLine>
        ensures { result ≡ less self.now on_hand reserved }
    {
        Some(StockLine {
            on_hand: self.on_hand.checked_sub(on_hand)?,
            reserved: self.reserved.checked_sub(reserved)?,
        })
    }
}

impl Line for StockLine {
    ghost changed = { stock_changed };

    ghost kept = { λ x y kind amount. chosen_kept keeps (stock_changes x amount) kind y };

    fn change(&self, change: Change) -> Result<StockLine, LineFault> {
        let Ok(kind) = StockChange::try_from(change.kind) else {
            return Err(LineFault::UnknownChange(change.line));
        };
        let amount = change.amount;
        let changed = match kind {
            StockChange::Receive => Some(self.more(amount, 0)),
            StockChange::Reserve => Some(self.more(0, amount)),
            StockChange::Release => self.less(0, amount),
            StockChange::Ship => self.less(amount, amount),
        };
        judged(changed, change.line)
    }
}
