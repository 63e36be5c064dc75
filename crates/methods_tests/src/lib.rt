// The three methods side by side, over a table of interleavings: whatever a keeper is asked, each answers the same. Apart from the methods, so that
// their proofs are not checked twice.
#![tactic(auto)]

#[cfg(test)]
mod tests {
    use calc::backed::Calc;
    use keepers::faults::KeeperFault;
    use keepers::rules::Rules;
    use keepers::stages::Stage;
    use keepers::traits::Keeper;
    use kinds::accounts::Account;
    use lines::changes::Change;
    use lines::faults::Refusal;
    use lines::traits::Line;
    use ping_pong::shadowed::PingPong;
    use std::test::Fail;
    use zigzag::twins::Zigzag;

    // When a command in seat 0 begins, changes line 0 and ends, in turns of the scene; and how it ends.
    #[derive(Clone, Copy)]
    struct Plan {
        begin: usize,
        change: usize,
        end: usize,
        commits: bool,
    }

    // What a call is answered: accepted, or the number of the refusal.
    type Answer = Result<(), u8>;

    // What a keeper answered in one turn of a scene, accepted too where the plan has no such call; the lines given out, each with whether it is named; and
    // the lines as committed.
    #[derive(Clone, Copy, PartialEq, Eq)]
    struct Seen {
        begun: Answer,
        changed: Answer,
        ended: Answer,
        moved: Answer,
        given: [Option<(i64, bool)>; 2],
        looks: [Option<i64>; 2],
    }

    fn account(balance: i64) -> Account {
        Account { balance, limit: 0 }
    }

    // Each crate of tests has its own, since none rests on another.
    fn number(answer: Result<(), KeeperFault>) -> Answer {
        answer.map_err(|fault| Refusal::from(fault).number)
    }

    fn given<'a, K: Keeper<'a, Line = Account>>(keeper: &mut K) -> Option<(i64, bool)> {
        keeper.give().map(|given| (given.line.balance, given.named))
    }

    fn balance<'a, K: Keeper<'a, Line = Account>>(keeper: &K, line: u16) -> Option<i64> {
        keeper.look(line).ok().map(|account| account.balance)
    }

    fn add(line: u16, amount: u32) -> Change {
        Change {
            line,
            kind: 1,
            amount,
        }
    }

    // A whole command on line 1, wherever every method allows one: it may not begin in Called.
    fn pass_by<'a, K: Keeper<'a, Line = Account>>(keeper: &mut K, turn: usize) {
        if keeper.stage() == Stage::Called {
            return;
        }
        let _ = keeper.begin(1);
        let _ = keeper.change(1, add(1, 1));
        let _ = if turn % 3 == 0 {
            keeper.abandon(1)
        } else {
            keeper.commit(1)
        };
    }

    // The second change of the line by one command is no first one.
    fn change<'a, K: Keeper<'a, Line = Account>>(keeper: &mut K) -> Answer {
        let first = keeper.change(0, add(0, 10));
        let _ = keeper.change(0, add(0, 100));
        number(first)
    }

    fn end<'a, K: Keeper<'a, Line = Account>>(keeper: &mut K, commits: bool) -> Answer {
        number(if commits {
            keeper.commit(0)
        } else {
            keeper.abandon(0)
        })
    }

    fn step<'a, K: Keeper<'a, Line = Account>>(keeper: &mut K) -> Answer {
        number(if keeper.stage() == Stage::Rest {
            keeper.call()
        } else {
            keeper.turn()
        })
    }

    // One turn: what the plan has for it, then a stage on, or as far as the keeper goes.
    fn play<'a, K: Keeper<'a, Line = Account>>(keeper: &mut K, plan: Plan, turn: usize) -> Seen {
        pass_by(keeper, turn);
        let begun = if plan.begin == turn {
            number(keeper.begin(0))
        } else {
            Ok(())
        };
        let changed = if plan.change == turn {
            change(keeper)
        } else {
            Ok(())
        };
        let ended = if plan.end == turn {
            end(keeper, plan.commits)
        } else {
            Ok(())
        };
        let given = [given(keeper), given(keeper)];
        let moved = step(keeper);
        Seen {
            begun,
            changed,
            ended,
            moved,
            given,
            looks: [balance(keeper, 0), balance(keeper, 1)],
        }
    }

    const TURNS: usize = 16;

    const NOTHING: Seen = Seen {
        begun: Ok(()),
        changed: Ok(()),
        ended: Ok(()),
        moved: Ok(()),
        given: [None; 2],
        looks: [Some(0); 2],
    };

    fn check(holds: bool) -> Result<(), Fail> {
        if holds {
            Ok(())
        } else {
            Err(Fail::new("the methods differ, or not from the point"))
        }
    }

    const OPENING: [Account; 2] = [
        Account {
            balance: 1000,
            limit: 0,
        },
        Account {
            balance: 2000,
            limit: 0,
        },
    ];

    // Plays a plan by one method, and sees that what is given out is what was committed at the point.
    fn trace<'a, K: Keeper<'a, Line = Account> + Drop>(
        memory: &'a mut [K::Cell],
        plan: Plan,
    ) -> Result<[Seen; TURNS], Fail> {
        let mut keeper = K::open(&OPENING, memory);
        let mut all = [NOTHING; TURNS];
        let mut point = [None; 2];
        for (turn, slot) in all.iter_mut().enumerate() {
            let seen = play(&mut keeper, plan, turn);
            let lines = seen.given.map(|given| given.map(|(line, _named)| line));
            check(lines == [None; 2] || lines == point)?;
            if keeper.stage() == Stage::Pointed && seen.moved == Ok(()) {
                point = seen.looks;
            }
            *slot = seen;
        }
        Ok(all)
    }

    // Once a quiet keeper has refused what CALC allows, only the quiet ones are compared.
    fn agree(plan: Plan) -> Result<(), Fail> {
        let blank = account(0);
        let calc = trace::<Calc<Account>>(&mut [Calc::blank(blank); 2], plan)?;
        let zigzag = trace::<Zigzag<Account>>(&mut [Zigzag::blank(blank); 2], plan)?;
        let ping_pong = trace::<PingPong<Account>>(&mut [PingPong::blank(blank); 2], plan)?;
        check(zigzag == ping_pong)?;
        for (calc, zigzag) in calc.iter().zip(zigzag.iter()) {
            if calc.begun != zigzag.begun {
                return check(zigzag.begun == Err(25));
            }
            check(calc == zigzag)?;
        }
        Ok(())
    }

    // Begins in every stage of a round and on, changes then or in one of the next stages, ends then or in one of the next.
    #[test]
    fn side_by_side() -> Result<(), Fail> {
        for begin in 0..8 {
            for change in begin..begin + 6 {
                for end in change..change + 6 {
                    for commits in [true, false] {
                        agree(Plan {
                            begin,
                            change,
                            end,
                            commits,
                        })?;
                    }
                }
            }
        }
        Ok(())
    }
}
