//! What stands in a ring.
ghost use Rattle.std.specs.Prelude.{◌≡◌};
ghost use Rattle.bd_ring.specs.Posts.{Brings};

use bd_turns::Post;
use std::marker::Model;

/// A post whose message brings the token that it names, seen as the post.
#[derive(Drop)]
pub struct Letter {
    post: Post,
}

impl Model for Letter {
    ghost use Rattle.bd_turns.specs.declared.queue.Post.{Post};

    ghost Value = { Post };

    ghost use Rattle.bd_ring.specs.Posts.{Brings};

    ghost view = { λ l. l.post };

    ghost invariant = { λ l. Brings l.post };
}

impl Letter {
    // Encloses a post.
    pub fn new(post: Post) -> Letter
        requires { Brings post }
        ensures { result ≡ post }
    {
        Letter { post }
    }

    // The post.
    pub fn open(self) -> Post
        ensures post { result ≡ self }
        ensures brings { Brings result }
    {
        self.post
    }
}
