//! Pieces that the disks of a thread's aio devices serve: which is next, and what a disk did with it.
ghost use Rattle.std.specs.Prelude.{◌≡◌, ◌<◌, vec_len, option_copied, IfOk, OnOk};
ghost use Rattle.bd_thread.specs.Disks.{piece_on_disk, NoPieceOnDisk};
ghost use Rattle.bd_thread.specs.Given.{ServesAs, ServesOver};
ghost use Rattle.bd_thread.specs.Looking.{KeepsOwn};
ghost use Rattle.bd_thread.specs.Seen.{block_size, number_of};
ghost use Rattle.bd_thread.specs.Waits.{Idles};
ghost use Rattle.bd_thread.specs.Work.{AsksNothing};

use crate::links::Links;
use crate::thread::Thread;
use bd_base::{Act, DevId, OutOfMemory, Token};
use bd_blocks::size_of;
use bd_home::{Given, serve_as_given};
use bd_machine::{Id, Kept, OpenPiece};
use bd_steps::next_on_disk;

impl<'a> Thread<'a> {
    /// The bytes of a block of a device.
    pub fn block_size(&self, dev: DevId) -> u32
        ensures { result ≡ block_size self.now dev }
    {
        size_of(self.setup, dev)
    }

    /// The piece that the disk of an aio device serves next: the one that waits first there, where this thread
    /// is the device's home, and the piece is here. None on any other device. It takes no memory.
    pub fn next_on_disk(&self, dev: DevId) -> Option<&OpenPiece>
        ensures { option_copied result ≡ piece_on_disk self.now dev }
    {
        let bases = self.part.bases.as_slice();
        let next = next_on_disk(bases, &self.held, self.setup, self.me, dev)?;
        Some(next.piece)
    }

    /// The disk of an aio device served the piece that is next there, which ended as given: true, one Apply
    /// says so, and the piece goes back to its own thread with what it read of the disk. False, and nothing
    /// changes, where no piece is next.
    #[tactic(auto, using(crate::proofs::Alone::alone_none))]
    pub fn serve_as_given(
        &mut self,
        links: &mut Links,
        dev: DevId,
        given: Given,
    ) -> Result<bool, OutOfMemory>
        requires { number_of self.old < vec_len links.old.queues }
        ensures over { OnOk result (ServesOver dev given.end given.read self.old links.old self.new links.new) }
        ensures tickets { OnOk result (KeepsOwn self.old → KeepsOwn self.new) }
        ensures quiet { OnOk result (Idles (NoPieceOnDisk dev) self.old links.old self.new links.new) }
        ensures serves { IfOk result (ServesAs dev given.end given.read self.old links.old self.new links.new) }
        ensures alone { OnOk result (AsksNothing links.old links.new) }
    {
        let setup = self.setup;
        let bases = self.part.bases.as_slice();
        let Some(next) = next_on_disk(bases, &self.held, setup, self.me, dev) else {
            return Ok(false);
        };
        let size = size_of(setup, dev);
        let req = next.req;
        let k = next.k;
        let end = given.end;
        let served = serve_as_given(
            self.alloc,
            &mut self.part.bases,
            size,
            dev,
            next.piece,
            given,
        )?;
        let Some(piece) = served else { unreachable!() };
        self.held.hold(Id::Piece(req, k), Kept::Piece(piece))?;
        self.outbox.push_back((req.thread, Token::Piece(req, k)))?;
        self.touched.add(req);
        self.note(links, Act::Apply { req, k, dev, end })?;
        Ok(true)
    }
}
