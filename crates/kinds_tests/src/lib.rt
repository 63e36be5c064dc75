// Tests of the kinds of line at their edges, apart from the kinds so that their proofs are not checked twice.
#![tactic(auto)]

#[cfg(test)]
mod tests {
    use kinds::accounts::Account;
    use kinds::stocks::StockLine;
    use lines::changes::Change;
    use lines::faults::LineFault;
    use lines::numbered::{change_line, change_lines, lawful_front};
    use lines::traits::{Coded, Line};

    const MOST: u32 = 4_294_967_295;

    fn account(balance: i64, limit: u32) -> Account {
        Account { balance, limit }
    }

    fn stock(on_hand: u32, reserved: u32) -> StockLine {
        StockLine { on_hand, reserved }
    }

    fn change(line: u16, kind: u8, amount: u32) -> Change {
        Change { line, kind, amount }
    }

    // Whether a change of line 3 gives `new`, or is refused by the rule where that is none.
    fn gives<L: Line + PartialEq>(old: L, kind: u8, amount: u32, new: Option<L>) -> bool {
        match (old.change(change(3, kind, amount)), new) {
            (Ok(line), Some(wanted)) => line == wanted,
            (Err(fault), None) => fault == LineFault::AgainstRule(3),
            _ => false,
        }
    }

    #[test]
    fn account_edges(rt: HostRuntime) {
        assert!(rt; account(-100, 100).keeps_rule());
        assert!(rt; !account(-101, 100).keeps_rule());
        assert!(rt; account(1_000_000_000_000, 0).keeps_rule());
        assert!(rt; !account(1_000_000_000_001, 0).keeps_rule());
        assert!(rt;
            gives(
                account(0, MOST),
                2,
                MOST,
                Some(account(-4_294_967_295, MOST)),
            )
        );
        assert!(rt; gives(account(-1, MOST), 2, MOST, None));
        assert!(rt; gives(account(0, 0), 1, MOST, Some(account(4_294_967_295, 0))));
        assert!(rt; gives(account(-5, 5), 3, 4, None));
        assert!(rt; gives(account(-5, 5), 3, MOST, Some(account(-5, MOST))));
        assert!(rt; account(0, 0).change(change(3, 4, 0)) == Err(LineFault::UnknownChange(3)));
    }

    // What a line was before does not count: only the result does.
    #[test]
    fn broken_accounts(rt: HostRuntime) {
        assert!(rt; gives(account(i64::MAX, 0), 1, MOST, None));
        assert!(rt; gives(account(i64::MAX, 0), 2, 1, None));
        assert!(rt; gives(account(i64::MIN, MOST), 2, MOST, None));
        assert!(rt;
            gives(
                account(1_000_000_000_001, 0),
                2,
                1,
                Some(account(1_000_000_000_000, 0)),
            )
        );
        assert!(rt; gives(account(-7, 0), 1, 7, Some(account(0, 0))));
        assert!(rt; gives(account(-7, 0), 3, 7, Some(account(-7, 7))));
    }

    #[test]
    fn stock_edges(rt: HostRuntime) {
        assert!(rt; stock(10_000_000, 10_000_000).keeps_rule());
        assert!(rt; !stock(10_000_001, 0).keeps_rule());
        assert!(rt; !stock(3, 4).keeps_rule());
        assert!(rt; gives(stock(9_999_999, 0), 1, 1, Some(stock(10_000_000, 0))));
        assert!(rt; gives(stock(10_000_000, 0), 1, 1, None));
        assert!(rt; gives(stock(10, 4), 3, 4, Some(stock(10, 0))));
        assert!(rt; gives(stock(10, 4), 3, 5, None));
        assert!(rt; gives(stock(10, 4), 4, 0, Some(stock(10, 4))));
        assert!(rt; stock(0, 0).change(change(3, 0, 0)) == Err(LineFault::UnknownChange(3)));
    }

    #[test]
    fn broken_stocks(rt: HostRuntime) {
        assert!(rt; gives(stock(MOST, MOST), 1, MOST, None));
        assert!(rt; gives(stock(MOST, MOST), 2, MOST, None));
        assert!(rt; gives(stock(MOST, MOST), 4, MOST, Some(stock(0, 0))));
        assert!(rt; gives(stock(3, 4), 1, 1, Some(stock(4, 4))));
        assert!(rt; gives(stock(3, 4), 3, 1, Some(stock(3, 3))));
    }

    #[test]
    fn payloads(rt: HostRuntime) {
        let mut memory = [7u8; 13];
        assert_eq!(rt; account(-100, 100).write_payload(&mut memory), Some(12));
        assert_eq!(rt; memory[12], 7);
        assert!(rt; <Account as Coded>::read_payload(&memory[0..12]) == Some(account(-100, 100)));
        assert!(rt; <Account as Coded>::read_payload(&memory[0..11]).is_none());
        assert!(rt; <Account as Coded>::read_payload(&memory).is_none());
        assert_eq!(rt; stock(1, 1).write_payload(&mut memory[0..7]), None);
        assert_eq!(rt; memory[0], 0x9c);
        // 3 on hand and 4 reserved is no line
        assert!(rt; <StockLine as Coded>::read_payload(&[3, 0, 0, 0, 4, 0, 0, 0]).is_none());
    }

    #[test]
    fn numbered_lines(rt: HostRuntime) {
        let mut lines = [account(0, 100), account(5, 0), account(-1, 0)];
        assert_eq!(rt; lawful_front(&lines), 2);
        assert!(rt; change_line(&mut lines, change(3, 1, 1)) == Err(LineFault::NoSuchLine(3)));
        let changes = [
            change(0, 2, 60),
            change(1, 1, 2),
            change(0, 2, 60),
            change(1, 1, 2),
        ];
        assert!(rt; change_lines(&mut lines, &changes) == Err(LineFault::AgainstRule(0)));
        assert!(rt; lines[0] == account(-60, 100));
        assert!(rt; lines[1] == account(7, 0));
    }
}
