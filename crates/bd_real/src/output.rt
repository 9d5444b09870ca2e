//! Standard output.
ghost use Rattle.std.specs.Prelude.{◌≡◌};

use bd_outside::{Failed, Sink};
use std::io::{Print, Printer, Write};

/// A writer of a type that tells what was written, or of one that doesn't: what isn't told of a
/// writer isn't told of it later.
pub trait SteadyWrite: Write {
    ghost use Rattle.std.specs.Prelude.{◌≡◌, None};

    ghost steady: { (old new : Self) → Self.contents old ≡ None → Self.contents new ≡ None };
}

/// What prints tells nothing.
impl<P: Print> SteadyWrite for Printer<'_, P> {
    ghost use Rattle.std.specs.Prelude.{refl};

    ghost steady = { λ old new untold. refl };
}

/// A writer as a sink, which tells the bytes that its writer tells: those of standard output are
/// not told. Nothing is kept back: what `put` says it took, the writer has taken.
#[derive(Drop)]
pub struct Output<W: SteadyWrite + Drop> {
    to: W,
    faults: u64,
}

impl<W: SteadyWrite + Drop> Output<W> {
    /// This writer, which hasn't failed yet.
    pub fn new(to: W) -> Output<W>
        ensures to { result.to ≡ to }
        ensures faults { result.faults ≡ 0 }
    {
        Output { to, faults: 0 }
    }
}

impl<W: SteadyWrite + Drop> Sink for Output<W> {
    ghost state = { λ s. record { faults = s.faults; written = W.contents s.to } };

    /// Failed where the system refuses, or takes nothing of a piece that isn't empty.
    fn put(&mut self, bytes: &[u8]) -> Result<usize, Failed> {
        match self.to.write(bytes) {
            Ok(n) if n > 0 || bytes.is_empty() => Ok(n),
            _ => {
                self.faults = self.faults.saturating_add(1);
                Err(Failed)
            }
        }
    }
}

#[cfg(test)]
mod tests {
    use super::*;
    use std::alloc::Global;
    use std::io::{self, ErrorKind};
    use std::test::Fail;

    // A writer that takes at most `most` bytes at once.
    #[derive(Drop)]
    struct SlowWriter {
        most: usize,
        taken: Vec<u8>,
    }

    impl Write for SlowWriter {
        fn write(&mut self, buf: &[u8]) -> io::Result<usize> {
            let n = self.most.min(buf.len());
            match self.taken.extend_from_slice(&buf[..n]) {
                Ok(()) => Ok(n),
                Err(_) => Err(ErrorKind::OutOfMemory.into()),
            }
        }

        fn flush(&mut self) -> io::Result<()> {
            Ok(())
        }
    }

    impl SteadyWrite for SlowWriter {
        ghost use Rattle.std.specs.Prelude.{refl};

        ghost steady = { λ old new untold. refl };
    }

    // What an output over a writer that takes at most N bytes at once says of three pieces, and has then.
    const PIECES: [(usize, [Result<usize, Failed>; 3], &[u8], u64); 3] = [
        (100, [Ok(6), Ok(0), Ok(3)], b"job 1 0 o", 0),
        (4, [Ok(4), Ok(0), Ok(3)], b"job 0 o", 0),
        (0, [Err(Failed), Ok(0), Err(Failed)], b"", 2),
    ];

    #[test]
    fn takes_what_it_says(rt: HostRuntime) -> Result<(), Fail> {
        let alloc: Global = rt.alloc();
        for (most, answers, text, faults) in &PIECES {
            let taken = Vec::new(alloc);
            let mut out = Output::new(SlowWriter { most: *most, taken });
            let said = [out.put(b"job 1 "), out.put(b""), out.put(b"0 o")];
            assert!(rt; said == *answers, "at most {most}");
            assert!(rt; out.to.taken.as_slice() == *text, "at most {most}");
            assert_eq!(rt; out.faults, *faults);
        }
        Ok(())
    }
}
