//! Room for requests.
ghost use Rattle.std.specs.Prelude.{◌≡◌};
ghost use Rattle.bd_rule_lines.specs.Known.{has_room};

// The most open requests of a thread.
const MOST_REQUESTS: usize = 1024;

/// Whether a thread of which this number of requests are open has room for one more: fewer than 1,024 are.
pub fn has_room(requests: usize) -> bool
    ensures { result ≡ has_room requests }
{
    requests < MOST_REQUESTS
}
