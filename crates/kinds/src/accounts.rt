// The account, type code 1.
ghost use Rattle.std.specs.Prelude.{◌≡◌};
ghost use Rattle.kinds.specs.Accounts.{account, account_changed, decoded, keeps, payload, account_changes, account_change};
ghost use Rattle.std.proofs.Common.{arith, of_z};
ghost use Rattle.std.specs.Int.{w64};
ghost use Rattle.kinds.specs.AccountBytes.{decoded-payload};
ghost use Rattle.lines.proofs.Payloads.{read_back, read_only, length_two, bytes_two};
ghost use Rattle.lines.proofs.Rules.{chosen_kept};

use lines::changes::{Change, UnknownKind};
use lines::faults::LineFault;
use lines::numbers::{read_two, write_two};
use lines::traits::{Coded, Line, judged};

// A builder's account in cents. It keeps its rule where -limit <= balance <= CEILING.
#[derive(Clone, Copy, PartialEq, Eq)]
pub struct Account {
    pub balance: i64,
    pub limit: u32,
}

// The byte that stands for the kind in an image.
const CODE: u8 = 1;

const CEILING: i64 = 1_000_000_000_000;

impl Coded for Account {
    ghost coding = { account };

    ghost lawful = { record {
      code_byte = omega arith;
      width_least = omega arith;
      width_most = omega arith;
      long = λ x. length_two 8 4 (of_z w64 x.balance) x.limit;
      bytes = λ x. bytes_two 8 4 (of_z w64 x.balance) x.limit;
      reads_back = λ x k. read_back decoded keeps payload x (decoded-payload x k) k;
      reads_only = read_only decoded keeps payload;
    } };

    fn type_code() -> u8 {
        CODE
    }

    fn width() -> usize {
        12
    }

    fn keeps_rule(&self) -> bool {
        -i64::from(self.limit) <= self.balance && self.balance <= CEILING
    }

    fn write_payload(&self, out: &mut [u8]) -> Option<usize> {
        write_two(self.balance.cast_unsigned(), self.limit, out)
    }

    fn read_payload(bytes: &[u8]) -> Option<Account> {
        let (balance, limit) = read_two::<u64, u32>(bytes)?;
        Account {
            balance: balance.cast_signed(),
            limit,
        }
        .kept()
    }
}

// The changes of an account, by their codes.
#[derive(Clone, Copy, PartialEq, Eq)]
pub enum AccountChange {
    // 1: the amount is added to the balance.
    Add,
    // 2: it is taken off.
    TakeOff,
    // 3: it becomes the limit.
    SetLimit,
}

impl TryFrom<u8> for AccountChange {
    type Error = UnknownKind;

    ghost try_from_gives = { λ code r. r ≡ account_change code };

    fn try_from(code: u8) -> Result<AccountChange, UnknownKind> {
        match code {
            1 => Ok(AccountChange::Add),
            2 => Ok(AccountChange::TakeOff),
            3 => Ok(AccountChange::SetLimit),
            _ => Err(UnknownKind { code }),
        }
    }
}

impl Line for Account {
    ghost changed = { account_changed };

    ghost kept = { λ x y kind amount. chosen_kept keeps (account_changes x amount) kind y };

    fn change(&self, change: Change) -> Result<Account, LineFault> {
        let Ok(kind) = AccountChange::try_from(change.kind) else {
            return Err(LineFault::UnknownChange(change.line));
        };
        let amount = i64::from(change.amount);
        // A sum that stops at an end of its type is as far outside the rule as the true one.
        let changed = match kind {
            AccountChange::Add => Account {
                balance: self.balance.saturating_add(amount),
                ..*self
            },
            AccountChange::TakeOff => Account {
                balance: self.balance.saturating_sub(amount),
                ..*self
            },
            AccountChange::SetLimit => Account {
                limit: change.amount,
                ..*self
            },
        };
        judged(Some(changed), change.line)
    }
}
