//! What a script's next move goes by.
ghost use Rattle.std.specs.Prelude.{◌≡◌};
ghost use Rattle.bd_rule_lines.specs.Known.{awaits_removal, awaits_size, is_smaller, known_by};

use bd_base::{Name, View};

/// What is known of a thread at one moment, as far as the lines of a script wait for it. Contracts see it
/// as a record of these facts.
pub trait Knows {
    ghost use Rattle.std.specs.Prelude.{◌≡◌};
    ghost use Rattle.bd_rule_lines.specs.Known.{Known};

    ghost known_of: { Self → Known };

    /// How many of its requests are open.
    fn requests(&self) -> usize
        ensures { result ≡ (known_of self.now).requests };

    /// Whether it took the mark.
    fn has_mark(&self, mark: &Name) -> bool
        ensures { result ≡ (known_of self.now).has_mark mark.now };

    /// Whether the name is bound to a handle whose remove event it hasn't taken.
    fn awaits_removal(&self, handle: &Name) -> bool
        ensures { result ≡ (known_of self.now).awaits_removal handle.now };

    /// Whether the name is bound to an open handle whose device, as far as the thread was told, has fewer blocks.
    fn awaits_size(&self, handle: &Name, blocks: u64) -> bool
        ensures { result ≡ (known_of self.now).awaits_size handle.now blocks };

    /// Whether a sleep of this number of microseconds, which its next line asks for, is over.
    fn has_slept(&self, micros: u64) -> bool
        ensures { result ≡ (known_of self.now).has_slept micros };
}

// Whether the first row of the name has a number below this one.
fn is_smaller(sizes: &[(Name, u64)], handle: &Name, blocks: u64) -> bool
    ensures { result ≡ is_smaller sizes.now handle.now blocks }
{
    for row in sizes {
        if row.0.is(handle) {
            return row.1 < blocks;
        }
    }
    false
}

/// By its lists of names and its moments: a sleep is over once its microseconds passed since the line was
/// first met, and at the last moment that a u64 can say in any case.
impl Knows for View {
    ghost known_of = { λ v. known_by v };

    fn requests(&self) -> usize {
        self.requests as usize
    }

    fn has_mark(&self, mark: &Name) -> bool {
        self.marks.has(mark)
    }

    fn awaits_removal(&self, handle: &Name) -> bool {
        self.bound.has(handle) && !self.gone.has(handle)
    }

    fn awaits_size(&self, handle: &Name, blocks: u64) -> bool {
        is_smaller(self.sizes.as_slice(), handle, blocks)
    }

    fn has_slept(&self, micros: u64) -> bool {
        self.met.saturating_add(micros) <= self.now
    }
}
