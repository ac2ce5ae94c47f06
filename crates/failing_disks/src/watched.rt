//! Disks that note where memory is refused to them.

ghost use Rattle.std.specs.Prelude.{◌≡◌};

use sqlite_disk::{Crash, Disk, Tally};
use std::io;

/// A disk that notes whether memory was refused to it: a store over it says of that only that its disk failed.
#[derive(Drop)]
pub struct Watched<D: Disk> {
    inner: D,
    lacked_memory: bool,
}

impl<D: Disk> Watched<D> {
    /// The disk, to which no memory was refused so far.
    pub fn new(inner: D) -> Watched<D> {
        Watched {
            inner,
            lacked_memory: false,
        }
    }

    /// The disk that calls are passed on to.
    pub fn inner(&self) -> &D {
        &self.inner
    }

    /// Whether memory was refused to it.
    pub fn lacked_memory(&self) -> bool {
        self.lacked_memory
    }
}

/// The same outcome. Notes whether it is that memory was refused.
fn noted(outcome: io::Result<()>, lacked_memory: &mut bool) -> io::Result<()>
    ensures { result ≡ outcome }
{
    if let Err(error) = outcome {
        if error.kind() == io::ErrorKind::OutOfMemory {
            *lacked_memory = true;
        }
    }
    outcome
}

impl<D: Disk> Disk for Watched<D> {
    ghost seen = { λ w. D.Disk.seen w.inner };

    ghost may_leave = { λ w. D.Disk.may_leave w.inner };

    ghost is_usable = { λ w. D.Disk.is_usable w.inner };

    ghost faults = { λ w. D.Disk.faults w.inner };

    ghost tally_of = { λ w. D.Disk.tally_of w.inner };

    ghost is_rotten = { λ w. D.Disk.is_rotten w.inner };

    ghost is_clean = { λ w. D.Disk.is_clean w.inner };

    ghost key_of = { λ w. D.Disk.key_of w.inner };

    ghost is_fair = { λ w. D.Disk.is_fair w.inner };

    ghost fair_if_clean = { λ w. D.Disk.fair_if_clean w.inner };

    ghost seen_may_stay = { λ w. D.Disk.seen_may_stay w.inner };

    ghost is_mixing = { λ w. D.Disk.is_mixing w.inner };

    fn mixes(&self) -> bool {
        self.inner.mixes()
    }

    fn key(&self) -> u64 {
        self.inner.key()
    }

    fn tally(&self) -> Tally {
        self.inner.tally()
    }

    fn may_be_used(&self) -> bool {
        self.inner.may_be_used()
    }

    fn len(&mut self) -> io::Result<usize> {
        self.inner.len()
    }

    fn read_at(&mut self, at: usize, buf: &mut [u8]) -> io::Result<()> {
        self.inner.read_at(at, buf)
    }

    fn read_checked(&mut self, key: u64, want: u64, at: usize, buf: &mut [u8]) -> io::Result<()> {
        self.inner.read_checked(key, want, at, buf)
    }

    fn write_at(&mut self, at: usize, bytes: &[u8]) -> io::Result<()> {
        noted(self.inner.write_at(at, bytes), &mut self.lacked_memory)
    }

    fn set_len(&mut self, len: usize) -> io::Result<()> {
        noted(self.inner.set_len(len), &mut self.lacked_memory)
    }

    fn sync(&mut self) -> io::Result<()> {
        noted(self.inner.sync(), &mut self.lacked_memory)
    }
}

/// A crash is made twice, since one of a disk in memory takes nothing where memory is refused to it.
impl<D: Crash> Crash for Watched<D> {
    fn crash(&mut self) {
        self.inner.crash();
        self.inner.crash();
    }
}
