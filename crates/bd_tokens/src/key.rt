//! The id of a token, as a hash map takes it.
ghost use Rattle.std.specs.Prelude.{◌≡◌};

use bd_machine::Id;
use bd_rule_view::same_id;
use std::hash::{Hash, Hasher};

/// An id. Two are equal that name the same token.
#[derive(Clone, Copy)]
pub struct Key {
    pub id: Id,
}

impl PartialEq for Key {
    ghost use Rattle.bd_machine.specs.Same.{same_id};
    ghost use Rattle.bd_tokens.specs.Keys.{keys_partly_equivalent};

    ghost eq = { λ a b. same_id a.id b.id };

    ghost laws = { keys_partly_equivalent };

    fn eq(&self, other: &Key) -> bool {
        same_id(self.id, other.id)
    }
}

impl Eq for Key {
    ghost use Rattle.bd_tokens.specs.Keys.{keys_equivalent};

    ghost laws = { keys_equivalent };
}

impl Hash for Key {
    ghost use Rattle.bd_tokens.specs.Keys.{writes_of, same_writes};

    ghost hash_input = { λ a. writes_of a.id };

    ghost respects_eq = { same_writes };

    fn hash<H: Hasher>(&self, state: &mut H) {
        match self.id {
            Id::Request(req) => {
                req.thread.hash(state);
                req.seq.hash(state);
            }
            Id::Piece(req, k) => {
                req.thread.hash(state);
                req.seq.hash(state);
                k.hash(state);
            }
            Id::Walk(walk) => {
                walk.thread.hash(state);
                walk.seq.hash(state);
            }
            Id::Notice {
                sender,
                receiver,
                number,
            } => {
                sender.hash(state);
                receiver.hash(state);
                number.hash(state);
            }
        }
    }
}
