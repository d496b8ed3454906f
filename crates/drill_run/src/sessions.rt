//! The sessions of a drill, and the answers to its lines.
ghost use Rattle.std.specs.Prelude.{◌≡◌, ◌≤◌, ◌++◌, [], IfOk, List, OnErr, OnOk, Option, Some, length, map, ℕ};
ghost use Rattle.std.specs.List.{AllByRecursion};
ghost use Rattle.dialogue.specs.Dialogue.{IsTextOf};
ghost use Rattle.drill_core.specs.Worlds.{HasNoFailures};
ghost use Rattle.io_edge.specs.Lines.{TextLine, Whole};
ghost use Rattle.session_acts.specs.Cursors.{unpins};
ghost use Rattle.session_acts.specs.Pins.{AreHeld};
ghost use Rattle.session_acts.specs.Watching.{nothing_kept};
ghost use Rattle.session_run.specs.Opened.{opened};
ghost use Rattle.session_run.specs.Responds.{IsFit};
ghost use Rattle.session_run.specs.Servable.{IsServable};
ghost use Rattle.session_run.specs.Standings.{standing_of};
ghost use Rattle.session_run.specs.Walks.{cursors_of};
ghost use Rattle.shell_lang.specs.Command.{TakesLines};
ghost use Rattle.shell_lang.specs.Reply.{text_of};
ghost use Rattle.store_core.specs.Stored.{HoldsPin};
ghost use Rattle.store_disk.specs.InMemory.{StandsInMemory};
ghost use Rattle.store_machine.specs.declared.machine.State.{State};
ghost use Rattle.drill_run.specs.Acts.{all_of, lines_refused, reopened_text};
ghost use Rattle.drill_run.specs.Causes.{Tally, nothing_set};
ghost use Rattle.drill_run.specs.Lines as lines;
ghost use Rattle.drill_run.specs.Lines.{Reads};
ghost use Rattle.drill_run.specs.Runs.{RunsTo};
ghost use Rattle.drill_run.specs.TalkLaws.{can_close, made_more, made_none};
ghost use Rattle.drill_run.specs.Talking.{begun};
ghost use Rattle.drill_run.specs.Talks.{Answers, AnswersAsked, AnswersOwn, AreReady, CanAnswer, IsDrilling, IsReady, IsSessionOf, Sets, WorldTerm, is_long, talks};
ghost use Rattle.drill_run.specs.Views.{kept_in};

use crate::line::{DrillLine, SESSIONS, drill_line};
use crate::numbers::push_numbered;
use chem_text::push_decimal;
use dialogue::{Stop, Talk};
use disk_pair::Which;
use drill_core::{World, disk_faults_are_counted};
use par_search::Meter;
use session_run::{Responder, Settings};
use shell_lang::{LineRefusal, Refusal, Reply, reply_text, taken_lines};
use std::alloc::{AllocError, Global};
use std::thread::Threads;

/// The sessions, in order of their numbers, the line that was taken, and a buffer that is reused for each reply.
#[derive(Drop)]
pub struct Sessions {
    pub settings: Settings,
    pub responders: Vec<Responder>,
    /// Whether the line that was taken is too long.
    pub too_long: bool,
    /// The reply to the line that was answered last.
    pub out: Vec<u8>,
}

impl Talk<Option<World>> for Sessions {
    ghost talk = { talks };

    fn add(&mut self, _: &[u8]) -> bool {
        self.too_long = false;
        true
    }

    fn add_long(&mut self, _: u64) -> bool {
        self.too_long = true;
        true
    }

    fn reply(&self) -> &[u8] {
        &self.out
    }

    fn close(&mut self, slot: &mut Option<World>) -> Result<(), Stop> {
        if let Some(world) = slot {
            self.give_back(world);
        }
        Ok(())
    }

    ghost made_none = { made_none };

    ghost made_more = { made_more };

    ghost can_close = { can_close };
}

impl Sessions {
    /// Sessions without cursors and watches.
    pub fn new(alloc: Global, settings: Settings) -> Result<Sessions, AllocError>
        requires servable { IsServable settings }
        ensures { IfOk result (λ sessions. (world : WorldTerm) (s : State) → StandsInMemory world s
            → HasNoFailures world → IsDrilling sessions (Some world) (begun settings.page) [] 0) }
    {
        let mut responders = Vec::new(alloc);
        for _ in 0..SESSIONS {
            let responder = Responder::new(alloc, settings)?;
            responders.push(responder)?;
        }
        Ok(Sessions {
            settings,
            responders,
            too_long: false,
            out: Vec::new(alloc),
        })
    }

    /// Answers the line that was taken, by its text. The reply is then in `out`. If memory runs out in a reopening, the
    /// world is gone.
    pub fn answer<R: Threads + Sync, M: Meter>(
        &mut self,
        rt: &R,
        slot: &mut Option<World>,
        meter: &M,
        text: &[u8],
    ) -> Result<(), Stop>
        requires { CanAnswer self.old slot.old text.now }
        ensures { AnswersAsked result self.old self.new slot.old slot.new text.now }
    {
        self.out.clear();
        match self.answer_line(rt, slot, meter, text) {
            Ok(()) => Ok(()),
            Err(_) => Err(Stop::NoMemory),
        }
    }

    // Answers the line that was taken, or refuses it if it is too long.
    fn answer_line<R: Threads + Sync, M: Meter>(
        &mut self,
        rt: &R,
        slot: &mut Option<World>,
        meter: &M,
        text: &[u8],
    ) -> Result<(), AllocError>
        requires ready { (tally : Tally) × (n : ℕ) × AreReady self.old slot.old tally n }
        requires empty { self.old.out.items ≡ [] }
        ensures { (line : TextLine) → is_long line ≡ self.old.too_long → IsTextOf line text.now
            → Answers result self.old self.new slot.old slot.new line }
    {
        if self.too_long {
            self.out.extend_from_slice(b"refused long\n")
        } else {
            self.obey(rt, slot, meter, text)
        }
    }

    // Executes a line.
    fn obey<R: Threads + Sync, M: Meter>(
        &mut self,
        rt: &R,
        slot: &mut Option<World>,
        meter: &M,
        text: &[u8],
    ) -> Result<(), AllocError>
        requires ready { (tally : Tally) × (n : ℕ) × AreReady self.old slot.old tally n }
        requires empty { self.old.out.items ≡ [] }
        ensures { Answers result self.old self.new slot.old slot.new (Whole text.now) }
    {
        let Some(world) = slot else { unreachable!() };
        match drill_line(text) {
            Some(DrillLine::Empty) => Ok(()),
            Some(DrillLine::Session { number, line }) => self.ask(rt, world, meter, number, line),
            Some(DrillLine::Stop { disk, calls }) => {
                stop(world, disk, calls);
                self.out.extend_from_slice(b"set\n")
            }
            Some(DrillLine::Fail { disk, call }) => {
                fail(world, disk, call);
                self.out.extend_from_slice(b"set\n")
            }
            Some(DrillLine::Reopen { image }) => self.reopen(slot, image),
            None => self.out.extend_from_slice(b"refused drill\n"),
        }
    }

    // Opens the world again. All cursors and watches are gone, and if memory runs out for it the world is too.
    fn reopen(&mut self, slot: &mut Option<World>, image: u32) -> Result<(), AllocError>
        requires ready { (tally : Tally) × (n : ℕ) × AreReady self.old slot.old tally n }
        requires empty { self.old.out.items ≡ [] }
        ensures { (line : TextLine) → Reads line (Some (lines.Reopen image))
            → Answers result self.old self.new slot.old slot.new line }
    {
        self.forget();
        let Some(world) = slot.take() else {
            unreachable!()
        };
        let (world, version) = world.reopen(image)?;
        *slot = Some(world);
        say_version(version, &mut self.out)
    }

    // Forgets the cursors and watches of all sessions.
    fn forget(&mut self)
        requires fit { AllByRecursion (IsSessionOf self.old.settings) self.old.responders.items }
        ensures fit { AllByRecursion (IsSessionOf self.old.settings) self.new.responders.items }
        ensures number { length self.new.responders.items ≡ length self.old.responders.items }
        ensures none { kept_in self.new.responders.items ≡ map (λ _. nothing_kept) self.old.responders.items }
        ensures settings { self.new.settings ≡ self.old.settings }
        ensures out { self.new.out ≡ self.old.out }
    {
        for responder in self.responders.iter_mut() {
            responder.forget();
        }
    }

    // Answers a session's line.
    fn ask<R: Threads + Sync, M: Meter>(
        &mut self,
        rt: &R,
        world: &mut World,
        meter: &M,
        number: u32,
        line: &[u8],
    ) -> Result<(), AllocError>
        requires ready { (tally : Tally) × (n : ℕ) × IsReady self.old world.old tally n }
        requires empty { self.old.out.items ≡ [] }
        requires some { 1 ≤ number }
        requires few { number ≤ SESSIONS }
        ensures { (of : TextLine) → Reads of (Some (lines.Session number line.now))
            → Answers result self.old self.new (Some world.old) (Some world.new) of }
    {
        disk_faults_are_counted();
        let responder = &mut self.responders[number as usize - 1];
        answer_alone(responder, rt, world, meter, line)?;
        push_numbered(number, &responder.out, &mut self.out)
    }

    // Gives back the pins of all open cursors, in order of the sessions.
    fn give_back(&mut self, world: &mut World)
        requires { AreHeld (HoldsPin world.old.memory) (all_of (kept_in self.old.responders.items)) }
        ensures { RunsTo world.old (unpins (all_of (kept_in self.old.responders.items)))
            (StandsInMemory world.new) }
    {
        for responder in self.responders.iter_mut() {
            match responder.cursors.close_all(world) {
                Ok(()) => {}
                // A world is never worn.
                Err(_) => unreachable!(),
            }
        }
    }
}

// Sets a stop of a disk.
fn stop(world: &mut World, disk: Which, calls: u32)
    ensures { Sets (lines.Stop disk calls) world.old world.new }
{
    match disk {
        Which::First => world.stop_after(u64::from(calls)),
        Which::Second => world.stop_after_b(u64::from(calls)),
    }
}

// Sets a failure of a disk.
fn fail(world: &mut World, disk: Which, call: u32)
    ensures { Sets (lines.Fail disk call) world.old world.new }
{
    match disk {
        Which::First => world.fail_once(u64::from(call)),
        Which::Second => world.fail_once_b(u64::from(call)),
    }
}

// Says the number of commits behind a reopening.
fn say_version(version: u32, out: &mut Vec<u8>) -> Result<(), AllocError>
    ensures { OnOk result (out.new.items ≡ out.old.items ++ reopened_text version) }
{
    out.extend_from_slice(b"reopened ")?;
    push_decimal(out, u64::from(version))?;
    out.push(b'\n')?;
    Ok(())
}

// Answers a session's line, or refuses one that would take more lines. The reply is then in `out` of the responder.
fn answer_alone<R: Threads + Sync, M: Meter>(
    responder: &mut Responder,
    rt: &R,
    world: &mut World,
    meter: &M,
    line: &[u8],
) -> Result<(), AllocError>
    requires fit { IsFit responder.old.cursors }
    requires held { AreHeld (HoldsPin world.old.memory) (cursors_of (opened responder.old.cursors)) }
    ensures ok { (size : ℕ) → size ≡ responder.old.cursors.settings.page
        → OnOk result ((a : AnswersOwn size line.now world.old world.new (standing_of responder.old)
        (standing_of responder.new)) × (responder.new.out.items ≡ text_of a.lines)) }
    ensures err { (size : ℕ) → size ≡ responder.old.cursors.settings.page
        → OnErr result (AnswersOwn size line.now world.old world.new (standing_of responder.old)
        (standing_of responder.new)) }
    ensures fit { IsFit responder.new.cursors }
    ensures settings { responder.new.cursors.settings ≡ responder.old.cursors.settings }
{
    match taken_lines(line) {
        Some(_) => refuse_lines(responder),
        None => answer_script_line(responder, rt, world, meter, line),
    }
}

// Refuses a line that would take lines after it.
fn refuse_lines(responder: &mut Responder) -> Result<(), AllocError>
    ensures ok { OnOk result (responder.new.out.items ≡ text_of lines_refused) }
    ensures cursors { responder.new.cursors ≡ responder.old.cursors }
    ensures kept { standing_of responder.new ≡ standing_of responder.old }
{
    responder.out.clear();
    reply_text(
        &Reply::Refused(Refusal::Line(LineRefusal::Syntax)),
        &mut responder.out,
    )
}

// Answers a line that takes no lines.
fn answer_script_line<R: Threads + Sync, M: Meter>(
    responder: &mut Responder,
    rt: &R,
    world: &mut World,
    meter: &M,
    line: &[u8],
) -> Result<(), AllocError>
    requires fit { IsFit responder.old.cursors }
    requires held { AreHeld (HoldsPin world.old.memory) (cursors_of (opened responder.old.cursors)) }
    requires alone { ¬ TakesLines line.now }
    ensures ok { OnOk result ((a : AnswersOwn responder.old.cursors.settings.page line.now world.old world.new
        (standing_of responder.old) (standing_of responder.new)) × (responder.new.out.items ≡ text_of a.lines)) }
    ensures err { OnErr result (AnswersOwn responder.old.cursors.settings.page line.now world.old world.new
        (standing_of responder.old) (standing_of responder.new)) }
    ensures fit { IsFit responder.new.cursors }
    ensures settings { responder.new.cursors.settings ≡ responder.old.cursors.settings }
{
    match responder.answer_line(rt, world, meter, line) {
        Ok(()) => Ok(()),
        Err(Stop::NoMemory) => Err(AllocError),
        // A world is never worn.
        Err(Stop::Worn) => unreachable!(),
    }
}
