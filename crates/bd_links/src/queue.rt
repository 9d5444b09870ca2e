//! A queue of messages to each thread.
ghost use Rattle.std.specs.Prelude.{◌≡◌, ◌<◌, ◌∷◌, [], ◌++◌, IfOk, OnOk, length, IfSome, IfNone, vec_len};
ghost use Rattle.bd_links.specs.Queues.{empty_queues, is_full, queues_of, IsFirst, Popped, Pushed};

use bd_base::OutOfMemory;
use bd_turns::Message;
use std::alloc::Global;
use std::collections::VecDeque;
use std::marker::Model;

/// The most messages on their way to one thread.
const MOST_MESSAGES: usize = 1024;

/// The messages on their way to a thread, seen as their list, the first to be taken first.
#[derive(Drop)]
pub struct Queue {
    messages: VecDeque<Message>,
}

impl Model for Queue {
    ghost use Rattle.std.specs.Prelude.{List};
    ghost use Rattle.bd_turns.specs.declared.queue.Message.{Message};

    ghost Value = { List Message };

    ghost view = { λ q. q.messages.items };
}

impl Queue {
    /// No message. It takes no memory.
    pub fn new(alloc: Global) -> Self
        ensures { result ≡ [] }
    {
        Queue {
            messages: VecDeque::new(alloc),
        }
    }

    /// How many messages it has.
    pub fn len(&self) -> usize
        ensures { result ≡ length self.now }
    {
        self.messages.len()
    }

    fn push(&mut self, message: Message) -> Result<(), OutOfMemory>
        ensures { OnOk result (self.new ≡ self.old ++ message ∷ []) }
    {
        self.messages.push_back(message)?;
        Ok(())
    }

    /// Puts a message before all others.
    pub fn push_first(&mut self, message: Message) -> Result<(), OutOfMemory>
        ensures { OnOk result (self.new ≡ message ∷ self.old) }
    {
        self.messages.push_front(message)?;
        Ok(())
    }

    /// Takes the first message. None where there is none.
    pub fn pop(&mut self) -> Option<Message>
        ensures some { IfSome result (λ m. self.old ≡ m ∷ self.new) }
        ensures none { IfNone result (self.new ≡ self.old) }
        ensures empty { IfNone result (self.old ≡ []) }
    {
        self.messages.pop_front()
    }

    /// The first message.
    pub fn first(&self) -> Option<&Message>
        ensures some { IfSome result (λ m. IsFirst m.now self.now) }
        ensures none { IfNone result (self.now ≡ []) }
    {
        self.messages.front()
    }
}

/// An empty queue for each thread.
#[tactic(auto, using(crate::proofs::Emptied::zeros_next))]
pub fn empty_queues(alloc: Global, threads: u32) -> Result<Vec<Queue>, OutOfMemory>
    ensures { IfOk result (λ queues. queues.items ≡ empty_queues threads) }
{
    let mut queues = Vec::new(alloc);
    for k in 0..threads {
        queues.push(Queue::new(alloc))?;
    }
    Ok(queues)
}

/// Takes the first message to the thread. None, and nothing changes, where there is none.
pub fn pop(queues: &mut Vec<Queue>, me: usize) -> Option<Message>
    requires { me < vec_len queues.old }
    ensures some { IfSome result (λ m. Popped queues.old.items queues.new.items me m) }
    ensures none { IfNone result (queues.new.items ≡ queues.old.items) }
    ensures empty { IfNone result (queues_of queues.old.items me ≡ []) }
    ensures len { vec_len queues.new ≡ vec_len queues.old }
{
    let queue = &mut queues[me];
    queue.pop()
}

/// Puts a message last in the queue to the thread.
pub fn push(queues: &mut Vec<Queue>, to: usize, message: Message) -> Result<(), OutOfMemory>
    requires { to < vec_len queues.old }
    ensures ok { OnOk result (Pushed queues.old.items queues.new.items to message) }
    ensures len { vec_len queues.new ≡ vec_len queues.old }
{
    let queue = &mut queues[to];
    queue.push(message)
}

/// Whether as many messages are on their way to the thread as may be: 1,024. To a thread that has
/// no queue none are.
pub fn is_full(queues: &[Queue], to: u32) -> bool
    ensures { result ≡ is_full queues.now to }
{
    match queues.get(to as usize) {
        Some(queue) => queue.len() >= MOST_MESSAGES,
        None => false,
    }
}
