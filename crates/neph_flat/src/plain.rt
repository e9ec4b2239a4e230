// The plain machine, kept as it is defined.
ghost use Rattle.std.specs.Prelude.{◌≡◌, ◌≤◌, ◌^◌, true, IfOk, IfSome};
ghost use Rattle.std.specs.Option.{option_copied};
ghost use Rattle.neph_model.specs.Books.{table_frames, aside_for, need_of};
ghost use Rattle.neph_model.specs.Machine.{is_live, is_over, sum_live};
ghost use Rattle.neph_model.specs.Start.{start_machine};
ghost use Rattle.neph_model.specs.Step.{is_due, is_paused};
ghost use Rattle.neph_model.specs.Turns.{next_command};
ghost use Rattle.neph_model.specs.WellFormed.{IsWellFormed, FitsPage};
ghost use Rattle.neph_flat.specs.Answers.{StepAnswers};
ghost use Rattle.neph_flat.specs.Flat.{live_own};
ghost use Rattle.neph_flat.specs.Sound.{IsSoundOwn};

use crate::counts::{aside, need, tables};
use crate::end::FlatEnd;
use crate::halves::Halves;
use crate::start::start_halves;
use neph_base::{Command, DomId, Entry, NoMemory, Reply, TryClone};
use neph_model::{Own, Script, Told};
use std::alloc::Global;
use std::marker::Model;

/// The plain machine of a script: its domains have flat memories of their own, without frames,
/// tables or counts.
#[derive(Drop)]
pub struct Plain {
    script: Script,
    halves: Halves,
}

impl Model for Plain {
    ghost use Rattle.neph_flat.specs.Flat.{Flat};
    ghost use Rattle.neph_flat.specs.Halves.{seen};
    ghost use Rattle.neph_flat.specs.Sound.{IsSound};
    ghost use Rattle.neph_model.specs.contracts.life.Guest as guest;
    ghost use Rattle.neph_model.specs.contracts.own.Own as own;
    ghost use Rattle.std.specs.Coded.{codes, coded_ℕ, coded_list};
    ghost use Rattle.std.specs.FinMap as map;
    ghost use Rattle.std.specs.Ordering.{nat_cmp};

    ghost Value = { Flat };

    ghost coded = { let pages = map.code {R = nat_cmp} coded_ℕ (coded_list coded_ℕ) in
        Prim.hlevel (codes, own.the_row.coded, guest.the_row.coded, pages) };

    ghost view = { λ a. record { script = a.script; machine = seen a.halves } };

    ghost invariant = { λ a. IsSound a.script (seen a.halves) };
}

impl Plain {
    /// The machine at the start of a script.
    pub fn start(alloc: Global, s: &Script) -> Result<Plain, NoMemory>
        requires { IsWellFormed s.now }
        ensures { IfOk result (λ p. p ≡ record { script = s.now; machine = start_machine s.now }) }
    {
        Ok(Plain {
            script: s.try_clone()?,
            halves: start_halves(alloc, s)?,
        })
    }

    /// Does an entry, told this of the free frames, where it is due: `NotNext` exactly where it
    /// isn't. An `Err` changes nothing. Only a commit takes memory, and a `map` that the domain
    /// does by itself, of a virtual page that maps to nothing or has no leaf table.
    pub fn step(&mut self, e: &Entry, told: Told) -> Result<Reply, FlatEnd>
        ensures did { StepAnswers self.old.script self.old.machine self.new.machine e.now told
            result }
        ensures script { self.new.script ≡ self.old.script }
    {
        self.halves.entry(&self.script, e, told)
    }

    /// Whether no domain is live.
    pub fn is_over(&self) -> bool
        ensures { result ≡ is_over self.now.machine }
    {
        self.halves.registry.live_count() == 0
    }

    /// The script that it runs.
    pub fn script(&self) -> &Script
        ensures value { result.now ≡ self.now.script }
        ensures formed { IsWellFormed result.now }
    {
        &self.script
    }

    /// How many frames the machine has.
    pub fn frames(&self) -> u32
        ensures value { result ≡ self.now.script.frames }
        ensures few { result ≤ 16384 }
    {
        self.script.frames
    }

    /// The own half of a domain, `None` exactly where it isn't live.
    pub fn own(&self, id: DomId) -> Option<&Own>
        ensures value { option_copied result ≡ live_own id self.now.machine }
        ensures sound { IfSome result (λ o. IsSoundOwn o.now) }
    {
        self.halves.live_own(&self.script, id)
    }

    /// The command at a domain's line. Behind the last there is an exit that isn't written.
    pub fn command(&self, id: DomId) -> Command
        ensures value { result ≡ next_command self.now.script self.now.machine id }
        ensures fits { FitsPage result }
    {
        self.halves.command(&self.script, id)
    }

    /// Whether a domain is paused: from the begin of a clone to its second stage, and as a child
    /// from its commit on.
    pub fn is_paused(&self, id: DomId) -> bool
        ensures { result ≡ is_paused id self.now.machine.shared }
    {
        self.halves.registry.is_paused(id)
    }

    /// Whether an entry is the next one of its actor, and may stand here.
    pub fn is_due(&self, e: &Entry) -> bool
        ensures { result ≡ is_due self.now.script self.now.machine e.now }
    {
        self.halves.is_due(e)
    }

    /// How many frames the tables of the live domains stand on.
    pub fn tables(&self) -> u32
        ensures value { result ≡ sum_live
            (table_frames self.now.machine) self.now.machine.shared.lives }
        ensures few { result ≤ 65536 }
    {
        tables(&self.halves, &self.script)
    }

    /// How many frames the clones in flight have put aside.
    pub fn aside(&self) -> u32
        ensures value { result ≡ sum_live
            (aside_for self.now.machine) self.now.machine.shared.lives }
        ensures few { result ≤ 2 ^ 24 }
    {
        aside(&self.halves, &self.script)
    }

    /// How many frames a clone of a live domain needs.
    pub fn need(&self, id: DomId) -> u32
        requires { is_live id self.now.machine.shared.lives ≡ true }
        ensures value { result ≡ need_of self.now.machine id }
        ensures few { result ≤ 1600 }
    {
        need(&self.halves, &self.script, id)
    }
}
