// Tests of the records of a log and of the two logs, apart from them so that their proofs are not checked twice.
#![tactic(auto)]

#[cfg(test)]
mod tests {
    use lines::changes::Change;
    use logs::byte_log::ByteLog;
    use logs::entries::Entry;
    use logs::entry_log::EntryLog;
    use logs::entry_records::{read_entry, write_entry};
    use logs::faults::LogFault;
    use logs::traits::Log;
    use records::commands::Command;
    use std::test::Fail;

    // A command with so many changes, at most four.
    fn command(changes: u8) -> Command {
        let mut command = Command::new();
        for k in 0..changes {
            let _ = command.push(Change {
                line: u16::from(k),
                kind: k,
                amount: 4_294_967_295,
            });
        }
        command
    }

    #[test]
    fn round_trips(rt: HostRuntime) {
        for changes in 0u8..5 {
            let mut out = [7u8; 40];
            let entry = Entry::Command(command(changes));
            let len = 4 + 7 * usize::from(changes);
            assert_eq!(rt; write_entry(&mut out, entry), Some(len));
            assert!(rt; read_entry(&out) == Some((entry, len)));
        }
    }

    #[test]
    fn entry_logs(rt: HostRuntime) {
        let mut memory = [Entry::Mark(9); 2];
        let mut log = EntryLog::open(&mut memory);
        assert_eq!(rt; log.count(), 0);
        assert!(rt; log.append(Entry::Mark(1)).is_ok());
        assert!(rt; log.append(Entry::Command(command(4))).is_ok());
        assert!(rt; log.append(Entry::Mark(2)) == Err(LogFault::Full(2)));
        assert!(rt; log.get(1) == Some(Entry::Command(command(4))));
        assert!(rt; log.get(2).is_none());
        log.empty();
        assert_eq!(rt; log.count(), 0);
        assert!(rt; log.get(0).is_none());
    }

    // A log over no memory has no room for anything.
    #[test]
    fn no_capacity(rt: HostRuntime) {
        let mut none = [Entry::Mark(9); 0];
        assert!(rt; EntryLog::open(&mut none).append(Entry::Mark(1)) == Err(LogFault::Full(0)));
        let mut short = [0u8; 3];
        let mut log = ByteLog::open(&mut short, 3);
        assert!(rt; log.append(Entry::Command(command(0))) == Err(LogFault::Full(0)));
        assert_eq!(rt; log.len(), 0);
        assert!(rt; ByteLog::check(&short, 3) == Err(LogFault::Unlawful(0)));
    }

    // Appends marks until one is refused, and answers how many the log holds; 0 where none was refused.
    fn filled<G: Log>(log: &mut G) -> usize {
        let full = (0u32..70_000).any(|point| log.append(Entry::Mark(point)).is_err());
        if full { log.count() } else { 0 }
    }

    // Memory beyond what a log may use is left alone.
    #[test]
    fn limits(rt: HostRuntime) -> Result<(), Fail> {
        let mut entries = vec![in rt.alloc(); Entry::Mark(9); 4_097]?;
        assert_eq!(rt; filled(&mut EntryLog::open(entries.as_mut_slice())), 4_096);
        let mut bytes = vec![in rt.alloc(); 7u8; 65_537]?;
        assert_eq!(rt; filled(&mut ByteLog::open(bytes.as_mut_slice(), 0)), 8_192);
        assert!(rt; ByteLog::check(bytes.as_slice(), 65_537) == Ok(8_192));
        assert_eq!(rt; bytes.last().copied(), Some(7));
        Ok(())
    }

    #[test]
    fn byte_logs(rt: HostRuntime) {
        let mut memory = [0u8; 19];
        let mut log = ByteLog::open(&mut memory, 0);
        assert!(rt; log.append(Entry::Command(command(1))).is_ok());
        assert!(rt; log.append(Entry::Mark(7)).is_ok());
        assert!(rt; log.append(Entry::Command(command(0))) == Err(LogFault::Full(2)));
        assert_eq!(rt; log.len(), 19);
        assert!(rt; log.get(1) == Some(Entry::Mark(7)));
        assert!(rt; log.get(2).is_none());
        log.empty();
        assert_eq!(rt; log.count(), 0);
        assert!(rt; log.append(Entry::Mark(8)).is_ok());
    }

    fn command_and_mark() -> [u8; 19] {
        let mut memory = [0u8; 19];
        let mut log = ByteLog::open(&mut memory, 0);
        let _ = log.append(Entry::Command(command(1)));
        let _ = log.append(Entry::Mark(7));
        memory
    }

    // Every cut of a command of 11 bytes and a mark of 8.
    #[test]
    fn cuts(rt: HostRuntime) {
        for u in 0usize..25 {
            let mut memory = command_and_mark();
            let whole = match u {
                0..11 => 0,
                11..19 => 1,
                _ => 2,
            };
            assert_eq!(rt; ByteLog::open(&mut memory, u).count(), whole);
            let wanted = match u {
                0 => Ok(0),
                11 => Ok(1),
                19..25 => Ok(2),
                1..11 => Err(LogFault::Unlawful(0)),
                _ => Err(LogFault::Unlawful(11)),
            };
            assert!(rt; ByteLog::check(&memory, u) == wanted);
        }
    }
}
