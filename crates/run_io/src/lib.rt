//! Bytes in and bytes out, with their faults counted. The program's reader and writer stand behind two traits, so that contracts can say
//! which bytes were taken and given, and tests can let any call fail.
#![tactic(auto)]

ghost use Rattle.std.specs.Prelude.{◌≡◌, ◌≤◌, IfOk, take};

mod io;
mod memory;
mod std_edge;

pub use io::{AllFault, Fault, Sink, Source, read_all, write_all};
pub use memory::{MemSink, MemSource};
pub use std_edge::{StdSink, StdSource};

#[cfg(test)]
mod tests {
    use super::*;
    use half_hash::Memory;
    use std::alloc::Global;
    use std::io;
    use std::io::{BufWriter, Cursor, ErrorKind, Read, Write};
    use std::test::Fail;

    const TEXT: &[u8; 8] = b"in order";

    /// What a caller can prove of a source that it made.
    fn first_five(alloc: Global, bytes: Vec<u8>) -> Result<Vec<u8>, AllFault>
        ensures { IfOk result (λ first. first.items ≡ take 5 bytes.items) }
    {
        let mut source = MemSource::new(bytes, 2, Vec::new(alloc));
        read_all(alloc, &mut source, 5)
    }

    /// What a caller can prove of a sink that it made.
    fn sink_of(alloc: Global, bytes: &[u8]) -> Result<MemSink, AllFault>
        ensures { IfOk result (λ sink. sink.held ≡ bytes.now) }
    {
        match MemSink::new(alloc, bytes.len(), Vec::new(alloc)) {
            Ok(mut sink) => {
                write_all(&mut sink, bytes)?;
                Ok(sink)
            }
            Err(Memory) => Err(AllFault::Memory),
        }
    }

    /// A reader and a writer that serves one call of two bytes, and then fails.
    #[derive(Drop)]
    struct Once {
        served: bool,
    }

    impl Once {
        fn serve(&mut self, len: usize) -> io::Result<usize>
            ensures { IfOk result (λ n. n ≤ len) }
        {
            if self.served {
                return Err(ErrorKind::BrokenPipe.into());
            }
            self.served = true;
            Ok(len.min(2))
        }
    }

    impl Read for Once {
        fn read(&mut self, buf: &mut [u8]) -> io::Result<usize> {
            self.serve(buf.len())
        }
    }

    impl Write for Once {
        fn write(&mut self, piece: &[u8]) -> io::Result<usize> {
            self.serve(piece.len())
        }

        fn flush(&mut self) -> io::Result<()> {
            Ok(())
        }
    }

    #[test]
    fn a_source_is_read_to_its_end_to_a_limit_or_to_a_fault(rt: HostRuntime) -> Result<(), Fail> {
        let alloc = rt.alloc();
        let cases: [(usize, usize, &[u64], Option<&[u8]>); 6] = [
            (1, 100, &[], Some(b"in order")),
            (3, 5, &[], Some(b"in or")),
            (3, 0, &[1], Some(b"")),
            (3, 100, &[1], None),
            (3, 100, &[2], None),
            (3, 100, &[0, 9], Some(b"in order")),
        ];
        for (piece, most, failing, want) in cases {
            assert!(rt; piece >= 1);
            let bytes = Vec::from_slice(alloc, TEXT)?;
            let mut source = MemSource::new(bytes, piece, Vec::from_slice(alloc, failing)?);
            match read_all(alloc, &mut source, most) {
                Ok(bytes) => assert!(rt; want == Some(bytes.as_slice())),
                Err(fault) => assert!(rt; fault == AllFault::Fault && want.is_none()),
            }
        }
        assert_eq!(rt;
            first_five(alloc, Vec::from_slice(alloc, TEXT)?)?.as_slice(),
            b"in or".as_slice()
        );
        Ok(())
    }

    #[test]
    fn a_sink_that_fails_holds_a_front(rt: HostRuntime) -> Result<(), Fail> {
        let alloc = rt.alloc();
        let cases: [(usize, &[u64], bool, bool, &[u8]); 5] = [
            (8, &[], true, true, b"in order"),
            (5, &[], true, false, b"in or"),
            (8, &[1], false, true, b"order"),
            (8, &[2], true, false, b"in "),
            (8, &[0, 3], true, true, b"in order"),
        ];
        for (most, failing, first, second, held) in cases {
            let mut sink = MemSink::new(alloc, most, Vec::from_slice(alloc, failing)?)?;
            assert_eq!(rt; write_all(&mut sink, b"in ").is_ok(), first);
            assert_eq!(rt; write_all(&mut sink, b"order").is_ok(), second);
            assert_eq!(rt; sink.held(), held);
        }
        assert_eq!(rt; sink_of(alloc, TEXT)?.held(), TEXT.as_slice());
        Ok(())
    }

    #[test]
    fn std_gives_and_takes_the_same_bytes(rt: HostRuntime) -> Result<(), Fail> {
        let alloc = rt.alloc();
        let mut source = StdSource::new(TEXT.as_slice());
        let bytes = read_all(alloc, &mut source, 100)?;
        let mut sink = StdSink::new(BufWriter::new(alloc, Vec::new(alloc))?);
        write_all(&mut sink, &bytes)?;
        // It has left the buffer too.
        assert_eq!(rt; sink.get_ref().get_ref().as_slice(), TEXT.as_slice());
        Ok(())
    }

    #[test]
    fn std_fails_in_mid_stream(rt: HostRuntime) -> Result<(), Fail> {
        let alloc = rt.alloc();
        let mut source = StdSource::new(Once { served: false });
        assert_eq!(rt; read_all(alloc, &mut source, 1)?.len(), 1);
        assert_eq!(rt;
            read_all(alloc, &mut source, 1).err(),
            Some(AllFault::Fault)
        );
        let mut sink = StdSink::new(Once { served: false });
        assert_eq!(rt; write_all(&mut sink, b"in"), Ok(()));
        assert_eq!(rt; write_all(&mut sink, b"order"), Err(Fault));
        let mut full = StdSink::new(Cursor::new([0u8; 3]));
        assert_eq!(rt; write_all(&mut full, TEXT), Err(Fault));
        assert_eq!(rt; full.get_ref().get_ref(), b"in ");
        Ok(())
    }
}
