//! The injections of one error device.
ghost use Rattle.std.specs.Prelude.{◌≡◌};
ghost use Rattle.bd_error.specs.Injected.{replaced, set_on};
ghost use Rattle.bd_machine.specs.Injecting.{decision_for, left_after, taken, while_left, with_data, without_data};

use bd_base::{Decision, ErrKind, Injection, Injections, IoSet, Op};

/// What is done with the injections of an error device. No call takes memory.
pub trait InjectionCalls {
    ghost use Rattle.bd_base.specs.declared.device.Injections.{Injections};

    ghost injections: { Self → Injections };

    /// Sets an injection for the next `num` requests of each named type (0 for none), in place of
    /// what stood there; the other types keep theirs.
    fn set(&mut self, io: IoSet, kind: ErrKind, num: u32)
        ensures { injections self.new ≡ set_on io kind num (injections self.old) };

    /// What a request of this type meets. If an injection for its type is left, the request takes
    /// it, and that count alone falls by one: `Failure` fails it, `Pending` keeps it, `Corrupt`
    /// turns byte 0 of its data. Only reads and writes have data; the other types leave a `Corrupt`
    /// untaken and pass. Resets and aborts take nothing and pass.
    fn take(&mut self, op: &Op) -> Decision
        ensures decision { result ≡ decision_for op.now (injections self.old) }
        ensures after { injections self.new ≡ left_after op.now (injections self.old) };
}

impl InjectionCalls for Injections {
    ghost injections = { λ i. i };

    fn set(&mut self, io: IoSet, kind: ErrKind, num: u32)
        ensures { self.new ≡ set_on io kind num self.old }
    {
        let injection = Injection { kind, left: num };
        self.read = new_if(io.read, injection, self.read);
        self.write = new_if(io.write, injection, self.write);
        self.zeroes = new_if(io.zeroes, injection, self.zeroes);
        self.unmap = new_if(io.unmap, injection, self.unmap);
        self.flush = new_if(io.flush, injection, self.flush);
    }

    fn take(&mut self, op: &Op) -> Decision
        ensures decision { result ≡ decision_for op.now self.old }
        ensures after { self.new ≡ left_after op.now self.old }
    {
        match op {
            Op::Read => take_with_data(&mut self.read),
            Op::Write(_) => take_with_data(&mut self.write),
            Op::Zeroes => take_without_data(&mut self.zeroes),
            Op::Unmap => take_without_data(&mut self.unmap),
            Op::Flush => take_without_data(&mut self.flush),
            Op::Reset(_) | Op::Abort(_) => Decision::Pass,
        }
    }
}

// The new injection where its type is named, else the old one.
fn new_if(named: bool, new: Injection, old: Injection) -> Injection
    ensures { result ≡ replaced named new.kind new.left old }
{
    if named { new } else { old }
}

// A read or a write takes the injection, if one is left.
fn take_with_data(injection: &mut Injection) -> Decision
    ensures decision { result ≡ while_left injection.old (with_data injection.old.kind) }
    ensures after { injection.new ≡ taken result injection.old }
{
    if injection.left == 0 {
        return Decision::Pass;
    }
    injection.left -= 1;
    match injection.kind {
        ErrKind::Failure => Decision::Fail,
        ErrKind::Pending => Decision::Pend,
        ErrKind::Corrupt => Decision::Corrupt,
    }
}

// A request without data takes the injection, if one is left that needs no data.
fn take_without_data(injection: &mut Injection) -> Decision
    ensures decision { result ≡ while_left injection.old (without_data injection.old.kind) }
    ensures after { injection.new ≡ taken result injection.old }
{
    match injection.kind {
        ErrKind::Corrupt => Decision::Pass,
        ErrKind::Failure | ErrKind::Pending => take_with_data(injection),
    }
}
