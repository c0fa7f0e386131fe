// Files that words name, read and checked.
ghost use Rattle.std.specs.Prelude.{◌≡◌, ◌<◌, Some, true, Ok, Err, IfOk, IfErr, OnOk};
ghost use Rattle.std.specs.List.{All};
ghost use Rattle.cif_io.specs.Outside.{Rose};
ghost use Rattle.cif_defs.specs.Accepted.{netlist_of};
ghost use Rattle.cif_defs.specs.Loop.{IsLevelled};
ghost use Rattle.cif_stimulus.specs.StimulusText.{stimulus_read};
ghost use Rattle.cif_stimulus.specs.Fitting.{fits_of};
ghost use Rattle.cif_stimulus.specs.Places.{IsOrdered};
ghost use Rattle.cif_stimulus.specs.declared.fault.StimFault.{StimFault as FaultValue};
ghost use Rattle.cif_script.specs.ScriptText.{script_of};
ghost use Rattle.cif_script.specs.ShownWires.{IsWireOf};
ghost use Rattle.cif_script.specs.declared.fault.ScriptFault.{ScriptFault as ScriptFaultValue};
ghost use Rattle.cif_desk.specs.Refusals.{stim_refusal, script_refusal};
ghost use Rattle.cif_desk.specs.Permitted.{FileTold, LongFileTold, IsNetlist, FailsNetlist, NetlistTold, NetlistRefused, StimulusTold, StimulusRefused, ScriptTold, ScriptRefused};
ghost use Rattle.cif_desk.specs.Stops.{StopsBy, StopsAtFile};

use crate::refusal::{
    build_stop, json_stop, loop_stop, script_stop, stim_stop, too_long_stop, unread_stop,
};
use crate::stop::Stop;
use cif_cells::Netlist;
use cif_io::{Store, StoreFault};
use cif_json::read_netlist;
use cif_level::{LevelFault, Levels, levels};
use cif_script::{Script, read_sessions};
use cif_stim_read::read_stimulus;
use cif_stimulus::Stimulus;
use std::alloc::Global;

/// A netlist that was accepted, and the order in which its cells are evaluated.
#[derive(Drop)]
pub(crate) struct Accepted {
    pub netlist: Netlist,
    pub levels: Levels,
}

/// What a file holds.
fn fetched<S: Store>(alloc: Global, name: &str, store: &mut S) -> Result<Vec<u8>, Stop>
    ensures ok { IfOk result (λ v. FileTold (S.told store.old) name.now v.items) }
    ensures err { IfErr result (StopsAtFile (LongFileTold (S.told store.old) name.now)
        (Rose (S.faults store.old) (S.faults store.new) × (S.last_failed store.new ≡ name.now)) name.now) }
    ensures kept { OnOk result (S.faults store.new ≡ S.faults store.old) }
    ensures same_files { S.told store.new ≡ S.told store.old }
{
    match store.fetch(alloc, name) {
        Ok(bytes) => Ok(bytes),
        Err(StoreFault::Failed) => Err(unread_stop(alloc, name)),
        Err(StoreFault::TooLong) => Err(too_long_stop(alloc, name)),
        Err(StoreFault::Memory) => Err(Stop::NoMemory),
    }
}

/// The netlist that bytes say, where they pass every check.
fn netlist_of_bytes(alloc: Global, bytes: &[u8]) -> Result<Accepted, Stop>
    ensures ok { IfOk result (λ a. IsNetlist bytes.now a.netlist) }
    ensures levelled { IfOk result (λ a. IsLevelled (netlist_of a.netlist) a.levels) }
    ensures err { IfErr result (StopsBy (FailsNetlist bytes.now)) }
{
    let raw = match read_netlist(alloc, bytes) {
        Ok(raw) => raw,
        Err(fault) => return Err(json_stop(alloc, fault)),
    };
    let netlist = match Netlist::build(alloc, raw) {
        Ok(netlist) => netlist,
        Err(fault) => return Err(build_stop(alloc, fault)),
    };
    match levels(alloc, &netlist) {
        Ok(levels) => Ok(Accepted { netlist, levels }),
        Err(LevelFault::Loop(cells)) => Err(loop_stop(alloc, &netlist, cells.items())),
        Err(LevelFault::Memory) => Err(Stop::NoMemory),
    }
}

/// The netlist of a file.
pub(crate) fn netlist_file<S: Store>(
    alloc: Global,
    name: &str,
    store: &mut S,
) -> Result<Accepted, Stop>
    ensures ok { IfOk result (λ a. NetlistTold (S.told store.old) name.now a.netlist) }
    ensures levelled { IfOk result (λ a. IsLevelled (netlist_of a.netlist) a.levels) }
    ensures err { IfErr result (StopsAtFile (NetlistRefused (S.told store.old) name.now)
        (Rose (S.faults store.old) (S.faults store.new) × (S.last_failed store.new ≡ name.now)) name.now) }
    ensures kept { OnOk result (S.faults store.new ≡ S.faults store.old) }
    ensures same_files { S.told store.new ≡ S.told store.old }
{
    let bytes = fetched(alloc, name, store)?;
    netlist_of_bytes(alloc, &bytes)
}

/// The stimulus that bytes say, for a netlist.
fn stimulus_of_bytes(alloc: Global, netlist: &Netlist, bytes: &[u8]) -> Result<Stimulus, Stop>
    ensures ok { IfOk result (λ s. stimulus_read netlist.now bytes.now ≡ Ok s) }
    ensures fits { IfOk result (λ s. fits_of netlist.now s ≡ true) }
    ensures ordered { IfOk result (λ s. IsOrdered s) }
    ensures err { IfErr result (StopsBy (λ r. (fault : FaultValue)
        × (stimulus_read netlist.now bytes.now ≡ Err fault) × (stim_refusal fault ≡ Some r))) }
{
    match read_stimulus(alloc, netlist, bytes) {
        Ok(stimulus) => {
            let _lines = stimulus.lines();
            Ok(stimulus)
        }
        Err(fault) => Err(stim_stop(alloc, fault)),
    }
}

/// The stimulus of a file, for a netlist.
pub(crate) fn stimulus_file<S: Store>(
    alloc: Global,
    name: &str,
    netlist: &Netlist,
    store: &mut S,
) -> Result<Stimulus, Stop>
    ensures ok { IfOk result (λ s. StimulusTold (S.told store.old) name.now netlist.now s) }
    ensures fits { IfOk result (λ s. fits_of netlist.now s ≡ true) }
    ensures cycles { IfOk result (λ s. 0 < s.cycles) }
    ensures err { IfErr result (StopsAtFile
        (StimulusRefused (S.told store.old) name.now netlist.now)
        (Rose (S.faults store.old) (S.faults store.new) × (S.last_failed store.new ≡ name.now)) name.now) }
    ensures kept { OnOk result (S.faults store.new ≡ S.faults store.old) }
    ensures same_files { S.told store.new ≡ S.told store.old }
{
    let bytes = fetched(alloc, name, store)?;
    stimulus_of_bytes(alloc, netlist, &bytes)
}

/// The script of sessions that bytes say, for a netlist.
fn script_of_bytes(alloc: Global, netlist: &Netlist, bytes: &[u8]) -> Result<Script, Stop>
    ensures ok { IfOk result (λ s. script_of netlist.now bytes.now ≡ Ok s) }
    ensures wires { IfOk result (λ s. All (IsWireOf netlist.now) s.wires) }
    ensures err { IfErr result (StopsBy (λ r. (fault : ScriptFaultValue)
        × (script_of netlist.now bytes.now ≡ Err fault) × (script_refusal fault ≡ Some r))) }
{
    match read_sessions(alloc, netlist, bytes) {
        Ok(script) => Ok(script),
        Err(fault) => Err(script_stop(alloc, fault)),
    }
}

/// The script of sessions of a file, for a netlist.
pub(crate) fn script_file<S: Store>(
    alloc: Global,
    name: &str,
    netlist: &Netlist,
    store: &mut S,
) -> Result<Script, Stop>
    ensures ok { IfOk result (λ s. ScriptTold (S.told store.old) name.now netlist.now s) }
    ensures wires { IfOk result (λ s. All (IsWireOf netlist.now) s.wires) }
    ensures err { IfErr result (StopsAtFile
        (ScriptRefused (S.told store.old) name.now netlist.now)
        (Rose (S.faults store.old) (S.faults store.new) × (S.last_failed store.new ≡ name.now)) name.now) }
{
    let bytes = fetched(alloc, name, store)?;
    script_of_bytes(alloc, netlist, &bytes)
}
