//! Tickets and purses. A mint of thread 3 issues a ticket, meets the number 6 and issues another; then
//! the requests of a case's numbers are finished, the rest is abandoned, and one more is issued.
use crate::words::number;
use bd_base::{OutOfMemory, ReqId, Status, ThreadId};
use bd_msg::{Mint, Purse};
use std::alloc::Global;

pub(crate) fn answer(alloc: Global, numbers: &str) -> Result<String, OutOfMemory> {
    let mut mint = Mint::new(ThreadId(3));
    let mut purse = Purse::new(alloc);
    if let Err(error) = purse.reserve(2) {
        purse.abandon();
        return Err(error);
    }
    purse.keep(mint.issue());
    mint.meet(6);
    purse.keep(mint.issue());
    let finished = finish_each(alloc, &mut purse, numbers);
    purse.abandon();
    let unused = mint.issue();
    let next = unused.id();
    unused.abandon();
    let finished = finished?;
    Ok(format!(in alloc; "{finished}, next {next:?}")?)
}

// What is finished of the requests of thread 3 with these numbers.
fn finish_each(alloc: Global, purse: &mut Purse, numbers: &str) -> Result<String, OutOfMemory> {
    let mut told = String::from_str(alloc, "finished")?;
    for word in numbers.split_whitespace() {
        let id = ReqId {
            thread: 3,
            seq: number(word),
        };
        let finished = purse.finish(id, Status::Failed);
        write!(told, " {finished:?}")?;
    }
    Ok(told)
}
