// The machine in its two halves, and its entries.
ghost use Rattle.std.specs.Prelude.{◌≡◌, ◌≤◌, ◌<◌, ◌∷◌, ℕ, List, true, None, Some, length, slice_set, IfOk, IfSome, OnErr};
ghost use Rattle.std.specs.Option.{option_copied};
ghost use Rattle.neph_model.specs.Turns.{next_command};
ghost use Rattle.neph_flat.specs.Flat.{live_own};
ghost use Rattle.neph_base.specs.declared.command.Command.TheVariants as command;
ghost use Rattle.neph_base.specs.declared.reply.Entry.TheVariants as entry;
ghost use Rattle.neph_model.specs.Laws.{AreGranted};
ghost use Rattle.neph_model.specs.Trap.{is_exposed, exposed_bytes, without_exposed};
ghost use Rattle.neph_model.specs.declared.told.Told.{Told};
ghost use Rattle.neph_model.specs.declared.script.Script.{Script};
ghost use Rattle.neph_model.specs.Births.{child_own, parent_own, none_alone};
ghost use Rattle.neph_model.specs.Lent.{lent, own_behind, own_replied};
ghost use Rattle.neph_model.specs.Machine.{is_live, own_at, guest_at, exposed_at, program_run};
ghost use Rattle.neph_model.specs.Own.{local_step, with_page};
ghost use Rattle.neph_model.specs.Programs.{command_at};
ghost use Rattle.neph_model.specs.Step.{actor, is_due, locked, shared_line, shared_commit};
ghost use Rattle.neph_model.specs.WellFormed.{FitsPage};
ghost use Rattle.neph_rows.specs.Row.{MayBeAsked};
ghost use Rattle.neph_rows.specs.Sound.{IsSoundRecords};
ghost use Rattle.neph_flat.specs.Answers.{StepAnswers, StepDone, HasAsked, IsAsked};
ghost use Rattle.neph_flat.specs.Sound.{IsSound, IsSoundOwn};

use crate::call::{go_on, lent, settle};
use crate::child::{child_own, none_alone};
use crate::end::FlatEnd;
use crate::flat_pages::FlatPages;
use crate::local::local;
use neph_base::{Command, DomId, Entry, GrantRef, List, NoMemory, Pfn, Reply};
use neph_laws::{grants_stay, stays_apart};
use neph_model::{Own, Script, Told};
use neph_rows::{Registry, commit, join, line, ungrant};
use std::alloc::Global;

/// The machine: the own half of each id, and the shared half.
#[derive(Drop)]
pub struct Halves {
    /// The allocator.
    pub alloc: Global,
    /// The own half of each id.
    pub own: Vec<Own>,
    /// Who is live, and the hypervisor's tables.
    pub registry: Registry,
    /// The exposed pages of each id.
    pub pages: FlatPages,
}

impl Halves {
    ghost use Rattle.neph_flat.specs.Halves.{seen};

    /// The own half of a domain, where it is live.
    pub fn live_own(&self, script: &Script, id: DomId) -> Option<&Own>
        requires { IsSound script.now (seen self.now) }
        ensures value { option_copied result ≡ live_own id (seen self.now) }
        ensures sound { IfSome result (λ o. IsSoundOwn o.now) }
    {
        if self.registry.life(id).is_none() {
            return None;
        }
        Some(&self.own[id.get() as usize])
    }

    /// The command at a domain's line.
    pub fn command(&self, script: &Script, id: DomId) -> Command
        requires { IsSound script.now (seen self.now) }
        ensures value { result ≡ next_command script.now (seen self.now) id }
        ensures fits { FitsPage result }
    {
        script.command_at(self.registry.program(id), self.own[id.get() as usize].line)
    }

    /// Does an entry, where it is due.
    pub fn entry(&mut self, script: &Script, e: &Entry, told: Told) -> Result<Reply, FlatEnd>
        requires { IsSound script.now (seen self.old) }
        ensures kept { IsSound script.now (seen self.new) }
        ensures did { StepAnswers script.now (seen self.old) (seen self.new) e.now told result }
    {
        if !self.is_due(e) {
            return Err(FlatEnd::NotNext);
        }
        stays_apart();
        grants_stay();
        Ok(self.step(script, e, told)?)
    }

    /// Whether an entry is the next one of its actor, and may stand here.
    pub fn is_due(&self, e: &Entry) -> bool
        requires { length self.now.own.items ≡ 64 }
        ensures due { (s : Script) → result ≡ is_due s (seen self.now) e.now }
        ensures sound { IsSoundRecords self.now.registry }
        ensures low { actor e.now < 64 }
    {
        match *e {
            Entry::Line { dom, line } => self.is_line_due(dom, line),
            Entry::Commit { dom, line } => self.is_commit_due(dom, line),
            Entry::Daemon => self.registry.has_waiting(),
        }
    }

    // Whether a line of a domain is due.
    fn is_line_due(&self, dom: DomId, line: u16) -> bool
        requires { length self.now.own.items ≡ 64 }
        ensures due { (s : Script) → result ≡ is_due s (seen self.now) (entry.Line dom line) }
        ensures sound { IsSoundRecords self.now.registry }
        ensures low { dom < 64 }
    {
        let here = self.own[dom.get() as usize].line == line;
        if self.registry.life(dom).is_none() {
            return false;
        }
        if self.registry.is_paused(dom) {
            return false;
        }
        here
    }

    // Whether a commit of a domain is due.
    fn is_commit_due(&self, dom: DomId, line: u16) -> bool
        requires { length self.now.own.items ≡ 64 }
        ensures due { (s : Script) → result ≡ is_due s (seen self.now) (entry.Commit dom line) }
        ensures sound { IsSoundRecords self.now.registry }
        ensures low { dom < 64 }
    {
        let here = self.own[dom.get() as usize].line == line;
        if self.registry.life(dom).is_none() {
            return false;
        }
        if self.registry.begun_count(dom) == 0 {
            return false;
        }
        here
    }

    // Does an entry that is due.
    fn step(&mut self, script: &Script, e: &Entry, told: Told) -> Result<Reply, NoMemory>
        requires kept { IsSound script.now (seen self.old) }
        requires due { is_due script.now (seen self.old) e.now ≡ true }
        ensures { StepDone script.now (seen self.old) (seen self.new) e.now told result }
    {
        match *e {
            Entry::Line { dom, line } => self.line(script, dom, line, told),
            Entry::Commit { dom, line } => self.commit(script, dom, line, told),
            Entry::Daemon => Ok(join(&mut self.registry)),
        }
    }

    // Does a line of a domain that is due.
    fn line(
        &mut self,
        script: &Script,
        dom: DomId,
        line: u16,
        told: Told,
    ) -> Result<Reply, NoMemory>
        requires kept { IsSound script.now (seen self.old) }
        requires due { is_due script.now (seen self.old) (entry.Line dom line) ≡ true }
        ensures { StepDone script.now (seen self.old) (seen self.new)
            (entry.Line dom line) told result }
    {
        let program = self.registry.program(dom);
        let command = script.command_at(program, line);
        let o = &mut self.own[dom.get() as usize];
        match local(script, program, o, told, &command)? {
            Some(reply) => Ok(reply),
            None => Ok(self.ask(dom, told, &command)),
        }
    }

    // Does a command of a domain that is due under the lock.
    fn ask(&mut self, dom: DomId, told: Told, command: &Command) -> Reply
        requires places { length self.old.own.items ≡ 64 }
        requires asked { IsAsked self.old.pages dom
            (lent (own_at dom self.old.own.items) command.now).met command.now }
        requires fits { FitsPage command.now }
        requires live { is_live dom self.old.registry.lives ≡ true }
        requires sound { IsSoundOwn (own_at dom self.old.own.items) }
        requires granted { AreGranted (guest_at dom self.old.registry.tables).grants
            (length (own_at dom self.old.own.items).pages) (exposed_at dom self.old.pages) }
        ensures { HasAsked (seen self.old) (seen self.new) dom told command.now result }
    {
        match command {
            Command::Ungrant { reference } => self.ungrant(dom, *reference),
            _ => self.call(dom, told, command),
        }
    }

    // Takes an entry of a domain's grants away. Where no other entry names its page, the page is
    // the domain's own again.
    fn ungrant(&mut self, dom: DomId, reference: GrantRef) -> Reply
        requires places { length self.old.own.items ≡ 64 }
        requires sound { IsSoundOwn (own_at dom self.old.own.items) }
        requires granted { AreGranted (guest_at dom self.old.registry.tables).grants
            (length (own_at dom self.old.own.items).pages) (exposed_at dom self.old.pages) }
        ensures { (told : Told) → HasAsked (seen self.old) (seen self.new) dom told
            (command.Ungrant reference) result }
    {
        match ungrant(&mut self.registry, dom, reference) {
            Ok(None) => self.answer(dom, Reply::Done),
            Ok(Some(pfn)) => {
                self.take_home(dom, pfn);
                self.answer(dom, Reply::Done)
            }
            Err(why) => self.answer(dom, Reply::Refused(why)),
        }
    }

    // Lets an exposed page of a domain be its own again.
    fn take_home(&mut self, dom: DomId, pfn: Pfn)
        requires places { length self.old.own.items ≡ 64 }
        requires there { is_exposed self.old.pages dom pfn ≡ true }
        requires inside { pfn < length (own_at dom self.old.own.items).pages }
        ensures pages { self.new.pages ≡ without_exposed self.old.pages dom pfn }
        ensures registry { self.new.registry ≡ self.old.registry }
        ensures own { self.new.own.items ≡ slice_set self.old.own.items dom
            (with_page (own_at dom self.old.own.items) pfn
            (Some (exposed_bytes self.old.pages dom pfn))) }
        ensures low { dom < 64 }
    {
        let page = self.pages.take(dom, pfn);
        let o = &mut self.own[dom.get() as usize];
        o.pages.put(pfn.get() as usize, page);
    }

    // A domain goes on behind this reply.
    fn answer(&mut self, dom: DomId, reply: Reply) -> Reply
        requires places { length self.old.own.items ≡ 64 }
        requires room { (own_at dom self.old.own.items).line < 65535 }
        ensures pages { self.new.pages ≡ self.old.pages }
        ensures registry { self.new.registry ≡ self.old.registry }
        ensures own { self.new.own.items ≡ slice_set self.old.own.items dom
            (own_replied (own_at dom self.old.own.items) reply) }
        ensures answer { result ≡ reply }
    {
        settle(&mut self.own[dom.get() as usize], &reply);
        reply
    }

    // Does a command of a domain under the lock by which no page comes home.
    fn call(&mut self, dom: DomId, told: Told, command: &Command) -> Reply
        requires places { length self.old.own.items ≡ 64 }
        requires asked { MayBeAsked self.old.pages dom
            (lent (own_at dom self.old.own.items) command.now).met command.now }
        requires fits { FitsPage command.now }
        requires live { is_live dom self.old.registry.lives ≡ true }
        requires sound { IsSoundOwn (own_at dom self.old.own.items) }
        ensures row { shared_line (seen self.old).shared dom
            (lent (own_at dom self.old.own.items) command.now) told command.now
            ≡ locked (seen self.new).shared result }
        ensures own { self.new.own.items
            ≡ slice_set self.old.own.items dom
            (own_behind (own_at dom self.old.own.items) command.now result None) }
    {
        let id = dom.get() as usize;
        let lent = lent(&self.own[id], command);
        let reply = line(
            &mut self.registry,
            &mut self.pages,
            dom,
            lent,
            told,
            command,
        );
        go_on(self.alloc, &mut self.own[id], command, &reply);
        reply
    }

    // Commits the clone that a domain began, which is due.
    fn commit(
        &mut self,
        script: &Script,
        dom: DomId,
        line: u16,
        told: Told,
    ) -> Result<Reply, NoMemory>
        requires kept { IsSound script.now (seen self.old) }
        requires due { is_due script.now (seen self.old) (entry.Commit dom line) ≡ true }
        ensures { StepDone script.now (seen self.old) (seen self.new)
            (entry.Commit dom line) told result }
    {
        let Some(child) = self.registry.first_begun(dom) else {
            unreachable!();
        };
        self.commit_child(dom, child)
    }

    // Commits a clone with this child.
    fn commit_child(&mut self, dom: DomId, child: DomId) -> Result<Reply, NoMemory>
        requires places { length self.old.own.items ≡ 64 }
        requires live { is_live dom self.old.registry.lives ≡ true }
        requires after { dom < child }
        requires sound { IsSoundOwn (own_at dom self.old.own.items) }
        ensures row { IfOk result (λ reply. shared_commit (seen self.old).shared dom
            (guest_at dom self.old.registry.tables).begun ≡ locked (seen self.new).shared reply) }
        ensures own { IfOk result (λ reply. self.new.own.items
            ≡ slice_set (slice_set self.old.own.items child
            (child_own child dom (own_at dom self.old.own.items))) dom
            (parent_own (own_at dom self.old.own.items))) }
        ensures err { OnErr result (seen self.new ≡ seen self.old) }
    {
        let id = dom.get() as usize;
        let o = &self.own[id];
        let born = child_own(self.alloc, child, dom, o)?;
        let alone = none_alone(self.alloc, o.alone.items())?;
        let reply = commit(&mut self.registry, &mut self.pages, dom)?;
        self.own[child.get() as usize] = born;
        leave(&mut self.own[id], alone);
        Ok(reply)
    }
}

// Goes on behind the commit of a clone, with no page that is known to be the domain's alone.
fn leave(o: &mut Own, alone: List<bool>)
    requires room { o.old.line < 65535 }
    requires none { alone ≡ none_alone o.old.alone }
    ensures { o.new ≡ parent_own o.old }
{
    o.line += 1;
    o.came = false;
    o.refused = false;
    o.alone = alone;
}
