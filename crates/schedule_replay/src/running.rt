// A schedule is replayed.

ghost use Rattle.std.specs.Prelude.{◌≡◌, ◌≢◌, ◌≤◌, ◌<◌, ◌+◌, ◌^◌, Some, Err, ℕ, List, length, take, OnOk, OnErr, IfErr, IfOk, false, []};
ghost use Rattle.std.specs.FinMap as map;
ghost use Rattle.saml_outside.specs.Sinks.{then_bytes};
ghost use Rattle.crash_disk.specs.Memory.{state_of};
ghost use Rattle.saml_outside.specs.Counts.{Rose};
ghost use Rattle.schedule_replay.specs.Runs.{AreLeft, Ends, Ran, alone, beginning, shown};
ghost use Rattle.schedule_replay.specs.Steps.{Does, Replays, is_starved};
ghost use Rattle.schedule_replay.specs.Deployments.{Deployment};
ghost use Rattle.schedule_replay.specs.Views.{stage_in, HasNodes, OwnsBoth, SameStage};

use crate::agents::Agents;
use crate::fault::ReplayFault;
use crate::host::HeldHost;
use crate::stage::Stage;
use crate::tally::Tally;
use crate::words::summary;
use conn_table::Conns;
use crash_disk::MemDisk;
use owned_values::NoMemory;
use saml_outside::Sink;
use saml_outside::laws::pieces_add_up;
use schedules::{Schedule, Step};
use serve_loop::Node;
use std::alloc::Global;

/// A table without connections for each of the two nodes.
fn no_connections(alloc: Global) -> Result<(Conns, Conns), NoMemory>
    ensures { IfOk result (λ (sp, idp). (sp ≡ map.empty) × (idp ≡ map.empty)) }
{
    Ok((Conns::new(alloc)?, Conns::new(alloc)?))
}

/// Prints the lines of a step, but where the last line alone is asked for.
fn print<K: Sink>(lines: &[u8], quiet: bool, out: &mut K) -> Result<(), ReplayFault>
    ensures ok { OnOk result (K.taken out.new ≡ then_bytes (K.taken out.old) (shown quiet lines.now)) }
    ensures part { OnErr result
        ((n : ℕ) × (K.taken out.new ≡ then_bytes (K.taken out.old) (take n (shown quiet lines.now)))) }
    ensures fault { IfErr result
        (λ fault. (fault ≡ ReplayFault.WriteFault) × Rose (K.faults_of out.old) (K.faults_of out.new)) }
    ensures never_falls { K.faults_of out.old ≤ K.faults_of out.new }
{
    pieces_add_up();
    if quiet {
        return Ok(());
    }
    match out.put(lines) {
        Ok(()) => Ok(()),
        Err(_) => Err(ReplayFault::WriteFault),
    }
}

impl<S: Node, P: Node> Stage<'_, '_, '_, '_, S, P> {
    /// Does the step of this number, and prints its lines.
    fn play<K: Sink>(
        &mut self,
        number: usize,
        step: &Step,
        quiet: bool,
        out: &mut K,
    ) -> Result<(), ReplayFault>
        requires own { OwnsBoth S.rules P.rules (stage_in self.old) }
        ensures ok { OnOk result
            ((after : Deployment _ _) × Does S.rules P.rules number step.now
            (stage_in self.old) after
            × (is_starved after ≡ false) × (stage_in self.new ≡ record after { lines = [] }) ×
            (K.taken out.new ≡ then_bytes (K.taken out.old) (shown quiet after.lines))) }
        ensures write_fault { result ≡ Err ReplayFault.WriteFault → (after : Deployment _ _) × (n : ℕ) × Does S.rules P.rules number step.now
            (stage_in self.old) after
            × (is_starved after ≡ false) × (stage_in self.new ≡ after) ×
            (K.taken out.new ≡ then_bytes (K.taken out.old) (take n (shown quiet after.lines))) }
        ensures no_memory { result ≡ Err ReplayFault.NoMemory → K.taken out.new ≡ K.taken out.old }
        ensures rose { result ≡ Err ReplayFault.WriteFault → Rose (K.faults_of out.old) (K.faults_of out.new) }
        ensures never_falls { K.faults_of out.old ≤ K.faults_of out.new }
        ensures own { OwnsBoth S.rules P.rules (stage_in self.new) }
        ensures objects { SameStage self.old self.new }
    {
        self.step(number, step)?;
        if self.is_starved() {
            return Err(ReplayFault::NoMemory);
        }
        print(self.lines.as_slice(), quiet, out)?;
        self.lines.clear();
        Ok(())
    }

    /// Does all steps, and prints their lines.
    fn run<K: Sink>(&mut self, steps: &[Step], quiet: bool, out: &mut K) -> Result<(), ReplayFault>
        requires own { OwnsBoth S.rules P.rules (stage_in self.old) }
        requires few { length steps.now < 2 ^ 63 }
        ensures ok { OnOk result
            ((text : List ℕ) × Replays S.rules P.rules
            (length steps.now) steps.now (stage_in self.old) text (stage_in self.new)
            × (K.taken out.new ≡ then_bytes (K.taken out.old) (shown quiet text))) }
        ensures write_fault { result ≡ Err ReplayFault.WriteFault → (done : ℕ) × (text : List ℕ) ×
            (last : Deployment _ _) × (n : ℕ)
            × Replays S.rules P.rules done
            steps.now (stage_in self.old) text last × HasNodes last (stage_in self.new)
            × (K.taken out.new ≡ then_bytes (K.taken out.old) (take n (shown quiet text))) }
        ensures no_memory { result ≡ Err ReplayFault.NoMemory → (done : ℕ) × (text : List ℕ) × (last : Deployment _ _)
            × Replays S.rules P.rules done
            steps.now (stage_in self.old) text last ×
            (K.taken out.new ≡ then_bytes (K.taken out.old) (shown quiet text)) }
        ensures rose { result ≡ Err ReplayFault.WriteFault → Rose (K.faults_of out.old) (K.faults_of out.new) }
        ensures never_falls { K.faults_of out.old ≤ K.faults_of out.new }
        ensures own { OwnsBoth S.rules P.rules (stage_in self.new) }
        ensures objects { SameStage self.old self.new }
    {
        for (i, step) in steps.iter().enumerate() {
            self.play(i + 1, step, quiet, out)?;
        }
        Ok(())
    }

    /// Does all steps, prints their lines, and last what they came to.
    fn perform<K: Sink>(
        &mut self,
        steps: &[Step],
        quiet: bool,
        out: &mut K,
    ) -> Result<Tally, ReplayFault>
        requires own { OwnsBoth S.rules P.rules (stage_in self.old) }
        requires few { length steps.now < 2 ^ 63 }
        ensures ends { (ran : Ran S.rules P.rules steps.now
            (stage_in self.old))
            × Ends S.rules P.rules ran quiet result
            (K.taken out.old) (K.taken out.new)
            × (result ≢ Err ReplayFault.NoMemory → HasNodes ran.last (stage_in self.new)) }
        ensures write_fault { result ≡ Err ReplayFault.WriteFault → Rose (K.faults_of out.old) (K.faults_of out.new) }
        ensures never_falls { K.faults_of out.old ≤ K.faults_of out.new }
        ensures own { OwnsBoth S.rules P.rules (stage_in self.new) }
        ensures sp_node { self.new.sp.node.ghost_name ≡ self.old.sp.node.ghost_name }
        ensures sp_disk { self.new.sp.disk.ghost_name ≡ self.old.sp.disk.ghost_name }
        ensures idp_node { self.new.idp.node.ghost_name ≡ self.old.idp.node.ghost_name }
        ensures idp_disk { self.new.idp.disk.ghost_name ≡ self.old.idp.disk.ghost_name }
    {
        self.run(steps, quiet, out)?;
        let tally = self.tally;
        let line = summary(self.alloc, tally)?;
        match out.put(line.as_bytes()) {
            Ok(()) => Ok(tally),
            Err(_) => Err(ReplayFault::WriteFault),
        }
    }
}

/// Carries out a schedule over two nodes and their disks, and prints a line for each step, an answer and a stop, and
/// last what it came to; with `quiet` the last line alone.
///
/// # Errors
///
/// [`ReplayFault::WriteFault`], only where the sink's count of faults rose. [`ReplayFault::NoMemory`] may come in place
/// of any answer; also where a disk found no memory.
pub fn replay<S: Node, P: Node, K: Sink>(
    alloc: Global,
    schedule: &Schedule,
    sp: &mut S,
    idp: &mut P,
    sp_disk: &mut MemDisk,
    idp_disk: &mut MemDisk,
    quiet: bool,
    out: &mut K,
) -> Result<Tally, ReplayFault>
    requires sp_own { S.rules.own sp.old (Some (state_of sp_disk.old)) }
    requires idp_own { P.rules.own idp.old (Some (state_of idp_disk.old)) }
    ensures ends { (ran : Ran S.rules P.rules schedule.now
        (beginning (alone sp.old sp_disk.old) (alone idp.old idp_disk.old)))
        × Ends S.rules P.rules ran quiet result
        (K.taken out.old) (K.taken out.new)
        × (result ≢ Err ReplayFault.NoMemory → AreLeft ran.last sp.new sp_disk.new idp.new idp_disk.new) }
    ensures write_fault { result ≡ Err ReplayFault.WriteFault → Rose (K.faults_of out.old) (K.faults_of out.new) }
    ensures never_falls { K.faults_of out.old ≤ K.faults_of out.new }
{
    let (mut sp_conns, mut idp_conns) = no_connections(alloc)?;
    let mut agents = Agents::new(alloc);
    let mut lines = Vec::new(alloc);
    let mut stage = Stage {
        alloc,
        clock: 0,
        sp: HeldHost {
            node: sp,
            disk: sp_disk,
            conns: &mut sp_conns,
        },
        idp: HeldHost {
            node: idp,
            disk: idp_disk,
            conns: &mut idp_conns,
        },
        agents: &mut agents,
        tally: Tally::new(),
        lines: &mut lines,
    };
    stage.perform(schedule.steps(), quiet, out)
}
