//! The tables of the registry, and what an answer changes there.
ghost use Rattle.std.specs.Prelude.{◌≡◌, Some, true, length, map, IfOk, OnOk, OnErr};
ghost use Rattle.bd_base.specs.declared.setup.Setup.{Setup};
ghost use Rattle.bd_rule_channels.specs.Counts.{count_for};
ghost use Rattle.bd_machine.specs.Changes.{counts_after, registry_after};
ghost use Rattle.bd_machine.specs.Registry.{references};
ghost use Rattle.bd_machine.specs.Start.{registry_at_start};
ghost use Rattle.bd_machine.specs.declared.state.Registry.{Registry};
ghost use Rattle.bd_registry.specs.Handles.{IsNext, is_of_kind};
ghost use Rattle.bd_registry.specs.Tables.{Agrees, part_of};

use crate::handles::Handles;
use bd_base::{Answer, DevId, OutOfMemory, RegEvent, Rows, Setup};
use bd_blocks::registry_at_start;
use bd_machine::{Between, Device};
use bd_rule_channels::Channels;
use bd_rule_effects::{between_after, change_devices};
use std::alloc::Global;

/// The open handles, the counts of channels, the devices by number, and what has to follow at once.
#[derive(Drop)]
pub(crate) struct Tables {
    pub(crate) handles: Handles,
    pub(crate) channels: Channels,
    pub(crate) devices: Rows<Device>,
    pub(crate) between: Option<Between>,
}

// What an event is about.
enum Part {
    OfHandles,
    OfChannels,
    OfDevices,
}

fn part_of(event: &RegEvent) -> Part
    ensures { result ≡ part_of event.now }
{
    match event {
        RegEvent::Open { .. } | RegEvent::Close { .. } | RegEvent::Claim { .. } => Part::OfHandles,
        RegEvent::GetChannel { .. } | RegEvent::PutChannel { .. } | RegEvent::DropChannel { .. } =>
            { Part::OfChannels }
        _ => Part::OfDevices,
    }
}

impl Tables {
    // The tables of what the registry is before any event.
    pub(crate) fn at_start(alloc: Global, setup: &Setup) -> Result<Tables, OutOfMemory>
        ensures { IfOk result (λ t. Agrees t (registry_at_start setup.now)) }
    {
        let start = registry_at_start(alloc, setup)?;
        let count = setup.devices.len();
        let handles = Handles::of(alloc, count, start.handles.as_slice())?;
        let channels = Channels::of(alloc, count, start.channels.as_slice())?;
        Ok(Tables {
            handles,
            channels,
            devices: start.devices,
            between: start.between,
        })
    }

    // Changes the tables as an answer says, which sets these counts. Out of memory, they say what they
    // said.
    pub(crate) fn change(
        &mut self,
        alloc: Global,
        thread: u32,
        event: &RegEvent,
        answer: &Answer,
        counts: &[(DevId, Option<u128>)],
    ) -> Result<(), OutOfMemory>
        requires number { IsNext (length self.old.handles.devices) answer.now }
        requires kind { is_of_kind event.now answer.now ≡ true }
        ensures ok { OnOk result ((setup : Setup) (r : Registry) → Agrees self.old r
            → map count_for counts.now ≡ counts_after setup (references r thread) event.now answer.now
            → Agrees self.new (registry_after setup r thread (Some (record { event = event.now; answer = answer.now })))) }
        ensures err { OnErr result ((r : Registry) → Agrees self.old r → Agrees self.new r) }
    {
        let between = between_after(thread, event, answer);
        match part_of(event) {
            Part::OfHandles => {
                self.handles.change(alloc, thread, event, answer)?;
                self.between = between;
                Ok(())
            }
            Part::OfChannels => {
                self.channels.change(thread, counts)?;
                self.between = between;
                Ok(())
            }
            Part::OfDevices => {
                change_devices(&mut self.devices, event, answer)?;
                self.between = between;
                Ok(())
            }
        }
    }
}
