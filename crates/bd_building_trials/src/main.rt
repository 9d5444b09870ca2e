//! Cases in words for the building of devices: each line of the input is a list of commands, which is
//! printed with the devices that they make and the commands that still wait, or with the refusal. What must
//! be printed stands in `stdout`.
#![tactic(auto)]

mod building;
mod words;

fn main(rt: HostRuntime) -> anyhow::Result<()> {
    for line in rt.lines(rt.alloc()) {
        let case = line?;
        let answer = building::answer(rt.alloc(), case.as_str())?;
        println!(rt; "{case} => {answer}")?;
    }
    Ok(())
}
