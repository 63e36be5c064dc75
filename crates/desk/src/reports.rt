// Reports on bytes that a script gives: as a log, as an image, and two images joined.
use crate::played::Played;
use crate::printing::{Hex, InWords, Refused, Reporter};
use images::reader::Image;
use joins::faults::JoinFault;
use joins::join::join;
use logs::byte_log::ByteLog;
use logs::traits::Log;
use records::heads::Head;

impl<'a> Reporter<'a> {
    // How many entries the bytes hold as a log, and each of them; or why they are none.
    pub(crate) fn report_log(self, bytes: &[u8], used: usize) -> anyhow::Result<()> {
        let count = match ByteLog::check(bytes, used) {
            Ok(count) => count,
            Err(fault) => return self.refused(fault),
        };
        self.answer(count)?;
        let mut memory: Vec<u8> = bytes.iter().copied().collect(self.rt.alloc())?;
        let log = ByteLog::open(memory.as_mut_slice(), used);
        for (i, entry) in (0..count).map_while(|i| log.get(i)).enumerate() {
            self.below(format_args!("{i} {}", InWords(entry)))?;
        }
        Ok(())
    }

    // What an image of lines of the kind L says: its head, and each of its lines; or why the bytes are none.
    pub(crate) fn report_image<L: Played>(self, bytes: &[u8]) -> anyhow::Result<()> {
        let image = match Image::read::<L>(bytes) {
            Ok(image) => image,
            Err(fault) => return self.refused(fault),
        };
        let count = image.count;
        let Head {
            mode,
            n,
            from,
            point,
            ..
        } = image.head;
        let mode = InWords(mode);
        self.answer(format_args!("{mode}, {count} lines of {n}, from {from}, point {point}"))?;
        for found in image.lines::<L>() {
            self.below(format_args!("{} {}", found.number, found.line.numbers()))?;
        }
        Ok(())
    }

    // The join of two images of lines of the kind L, made in so many bytes of memory; or why there is none.
    pub(crate) fn report_join<L: Played>(
        self,
        earlier: &[u8],
        later: &[u8],
        room: usize,
    ) -> anyhow::Result<()> {
        let mut memory = vec![in self.rt.alloc(); 0u8; room]?;
        match join::<L>(earlier, later, memory.as_mut_slice()) {
            Ok(len) => {
                memory.truncate(len);
                self.answer(format_args!("{len} {}", Hex(memory.as_slice())))
            }
            Err(fault) => self.answer(format_args!(
                "{}{}",
                Refused(fault.into()),
                which_image(fault)
            )),
        }
    }
}

// Which of two images is none, where that is why they are not joined: a word behind the refusal, for two of four faults.
fn which_image(fault: JoinFault) -> &'static str {
    match fault {
        JoinFault::Earlier(_) => " earlier",
        JoinFault::Later(_) => " later",
        JoinFault::Apart(_) | JoinFault::Short(_) => "",
    }
}
