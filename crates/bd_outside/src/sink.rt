//! Where output goes.
use crate::failed::Failed;

/// Takes bytes.
pub trait Sink {
    ghost use Rattle.std.specs.Prelude.{◌<◌, ◌≤◌, length, take, IfOk, OnErr};
    ghost use Rattle.std.specs.Io.KnownBytes.{Appends, Keeps};
    ghost use Rattle.bd_outside.specs.Sink.{SinkState, Fails, StaysUntold};

    // how often it failed, and the bytes that it took, if it tells them
    ghost state: { Self → SinkState };

    /// Takes a prefix of the bytes, and says how many bytes it took: at least one,
    /// where there are any.
    ///
    /// Failed: the sink took none, and its count of faults rose.
    fn put(&mut self, bytes: &[u8]) -> Result<usize, Failed>
        ensures within { IfOk result (λ n. n ≤ length bytes.now) }
        ensures some { 0 < length bytes.now → IfOk result (λ n. 0 < n) }
        ensures taken { IfOk result (λ n. Appends (state self.old).written (state self.new).written (take n bytes.now)) }
        ensures none { OnErr result (Keeps (state self.old).written (state self.new).written) }
        ensures untold { StaysUntold (state self.old) (state self.new) }

        ensures fault_count { (state self.old).faults ≤ (state self.new).faults }
        ensures failed { OnErr result (Fails (state self.old) (state self.new)) };
}
