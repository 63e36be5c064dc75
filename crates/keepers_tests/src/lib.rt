// Scenes that every keeper plays alike, on accounts. Apart from the keepers, so that their proofs are not checked twice.
#![tactic(auto)]

#[cfg(test)]
mod tests {
    use keepers::faults::KeeperFault;
    use keepers::rules::Rules;
    use keepers::traits::Keeper;
    use kinds::accounts::Account;
    use lines::changes::Change;
    use lines::faults::Refusal;
    use lines::traits::Line;
    use std::test::Fail;
    use zigzag::twins::Zigzag;

    // What a call is answered: accepted, or the number of the refusal.
    type Answer = Result<(), u8>;

    const ACCEPTED: Answer = Ok(());

    // A call and what is expected of it.
    #[derive(Clone, Copy)]
    enum Call {
        Begin(u8, Answer),
        // Seat, line, change kind, amount.
        Change(u8, u16, u8, u32, Answer),
        Commit(u8, Answer),
        Abandon(u8, Answer),
        Image(Answer),
        Turn(Answer),
        // The balance, and whether the line is named; or that no line is given out.
        Give(Option<(i64, bool)>),
        Look(u16, i64),
    }

    // Out of Rest into Taking, and from there back.
    const TO_TAKING: [Call; 3] = [
        Call::Image(ACCEPTED),
        Call::Turn(ACCEPTED),
        Call::Turn(ACCEPTED),
    ];

    const TO_REST: [Call; 3] = [Call::Give(None), Call::Turn(ACCEPTED), Call::Turn(ACCEPTED)];

    // Two seats, one of which abandons; a point; lines given out while a change goes on.
    const FIRST_IMAGE: [Call; 24] = [
        Call::Begin(0, ACCEPTED),
        Call::Begin(1, ACCEPTED),
        Call::Change(0, 0, 1, 50, ACCEPTED),
        Call::Change(1, 0, 1, 1, Err(22)),
        Call::Change(1, 1, 2, 20, ACCEPTED),
        Call::Look(0, 100),
        Call::Look(1, 200),
        Call::Commit(0, ACCEPTED),
        Call::Abandon(1, ACCEPTED),
        Call::Look(0, 150),
        Call::Look(1, 200),
        Call::Image(ACCEPTED),
        Call::Turn(ACCEPTED),
        Call::Begin(2, ACCEPTED),
        Call::Turn(ACCEPTED),
        Call::Change(2, 1, 1, 7, ACCEPTED),
        Call::Turn(Err(28)),
        Call::Give(Some((150, true))),
        Call::Give(Some((200, false))),
        Call::Turn(ACCEPTED),
        Call::Turn(Err(28)),
        Call::Commit(2, ACCEPTED),
        Call::Look(1, 207),
        Call::Turn(ACCEPTED),
    ];

    // Who is turned away, and in which order.
    const REFUSALS: [Call; 19] = [
        Call::Begin(16, Err(1)),
        Call::Commit(255, Err(1)),
        Call::Abandon(3, Err(21)),
        Call::Begin(15, ACCEPTED),
        Call::Begin(15, Err(20)),
        Call::Change(15, 2, 9, 0, Err(2)),
        Call::Change(15, 1, 9, 0, Err(5)),
        Call::Change(15, 1, 2, 201, Err(24)),
        Call::Change(15, 1, 2, 50, ACCEPTED),
        Call::Change(15, 1, 2, 50, ACCEPTED),
        Call::Change(15, 1, 2, 50, ACCEPTED),
        Call::Change(15, 1, 2, 50, ACCEPTED),
        Call::Change(15, 1, 9, 0, Err(23)),
        Call::Turn(Err(29)),
        Call::Image(ACCEPTED),
        Call::Image(Err(27)),
        Call::Turn(Err(28)),
        Call::Commit(15, ACCEPTED),
        Call::Look(1, 0),
    ];

    fn account(balance: i64) -> Account {
        Account { balance, limit: 0 }
    }

    // Each crate of tests has its own, since none rests on another.
    fn number(answer: Result<(), KeeperFault>) -> Answer {
        answer.map_err(|fault| Refusal::from(fault).number)
    }

    // Makes the call, and says whether it went as expected.
    fn made<'a, K: Keeper<'a, Line = Account>>(keeper: &mut K, call: Call) -> bool {
        match call {
            Call::Begin(seat, answer) => number(keeper.begin(seat)) == answer,
            Call::Change(seat, line, kind, amount, answer) => {
                number(keeper.change(seat, Change { line, kind, amount })) == answer
            }
            Call::Commit(seat, answer) => number(keeper.commit(seat)) == answer,
            Call::Abandon(seat, answer) => number(keeper.abandon(seat)) == answer,
            Call::Image(answer) => number(keeper.call()) == answer,
            Call::Turn(answer) => number(keeper.turn()) == answer,
            Call::Give(answer) => {
                keeper.give().map(|given| (given.line.balance, given.named)) == answer
            }
            Call::Look(line, balance) => {
                keeper.look(line).ok().map(|account| account.balance) == Some(balance)
            }
        }
    }

    // Plays a scene. A call that goes otherwise is named by its place.
    fn play<'a, K: Keeper<'a, Line = Account>>(keeper: &mut K, scene: &[Call]) -> Result<(), Fail> {
        for (i, call) in scene.iter().enumerate() {
            if !made(keeper, *call) {
                return Err(Fail::new(i));
            }
        }
        Ok(())
    }

    // A keeper of so many lines passes a point and gives them all out.
    fn image<'a, K: Keeper<'a, Line = Account>>(keeper: &mut K, lines: usize) -> Result<(), Fail> {
        if keeper.count() != lines {
            return Err(Fail::new("another number of lines"));
        }
        play(keeper, &TO_TAKING)?;
        for _k in 0..lines {
            play(keeper, &[Call::Turn(Err(28)), Call::Give(Some((5, false)))])?;
        }
        play(keeper, &TO_REST)
    }

    #[test]
    fn zigzag_rounds() -> Result<(), Fail> {
        let mut memory = [Zigzag::blank(account(0)); 3];
        let mut keeper = Zigzag::open(&[account(100), account(200)], &mut memory);
        play(&mut keeper, &FIRST_IMAGE)?;
        play(&mut keeper, &TO_TAKING)?;
        play(
            &mut keeper,
            &[
                Call::Give(Some((150, false))),
                Call::Give(Some((207, true))),
            ],
        )?;
        play(&mut keeper, &TO_REST)
    }

    #[test]
    fn zigzag_refusals() -> Result<(), Fail> {
        let mut memory = [Zigzag::blank(account(0)); 2];
        let mut keeper = Zigzag::open(&[account(100), account(200)], &mut memory);
        play(&mut keeper, &REFUSALS)?;
        play(&mut keeper, &[Call::Begin(4, Err(25))])
    }

    #[test]
    fn zigzag_sizes(rt: HostRuntime) -> Result<(), Fail> {
        let blank = Zigzag::blank(account(0));
        let mut none = [blank; 0];
        image(&mut Zigzag::open(&[account(5); 3], &mut none), 0)?;
        let mut one = [blank; 1];
        image(&mut Zigzag::open(&[account(5); 3], &mut one), 1)?;
        let mut many = vec![in rt.alloc(); blank; 1030]?;
        let opening = vec![in rt.alloc(); account(5); 1027]?;
        image(&mut Zigzag::open(&opening, &mut many), 1024)
    }

    // The opening list ends before its first line that breaks its rule.
    #[test]
    fn zigzag_front(rt: HostRuntime) {
        let mut memory = [Zigzag::blank(account(0)); 4];
        let keeper = Zigzag::open(&[account(5), account(-1), account(5)], &mut memory);
        assert_eq!(rt; keeper.count(), 1);
    }
}
