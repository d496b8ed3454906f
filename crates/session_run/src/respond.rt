//! The answers to requests.
ghost use Rattle.std.specs.Prelude.{◌≡◌, [], ℕ, IfOk, List, Ok};
ghost use Rattle.io_edge.specs.Lines.{TextLine, Whole};
ghost use Rattle.mol_finish.specs.declared.fault.Format.TheVariants.{Smiles};
ghost use Rattle.shell_lang.specs.Command.{IsLine, Spells, StartsMolfile, TakesLines, molfile_command};
ghost use Rattle.shell_lang.specs.CommandView.{command_of};
ghost use Rattle.shell_lang.specs.Reply.{reply_of};
ghost use Rattle.store_machine.specs.History.{IsId};
ghost use Rattle.store_machine.specs.declared.machine.Change.TheVariants as changes;
ghost use Rattle.store_machine.specs.declared.machine.Event.TheVariants as events;
ghost use Rattle.session_acts.specs.Acts.{Allows, MayAsk, MayChange, RequestAllows, RequestAnswer};
ghost use Rattle.session_acts.specs.Requests.{Request};
ghost use Rattle.session_run.specs.Made.{AnsweredBy};
ghost use Rattle.session_run.specs.Opened.{opened};
ghost use Rattle.session_run.specs.Responds.{IsFit, IsLineWithout, IsReady, IsTextChange, RespondedBy, change_by};
ghost use Rattle.session_run.specs.Standings.{standing_of};
ghost use Rattle.session_run.specs.Underway.{IsNext};
ghost use Rattle.session_run.specs.declared.request.Next.TheVariants as next;

use crate::commands::{
    TextChange, Verb, change_text, commit, compact, prune, refuse_text, show, stats,
};
use crate::cursors::Cursors;
use crate::items::find_data;
use crate::listing::ROOM;
use crate::matching::Matching;
use crate::records::{Part, SdTexts};
use crate::request::Next;
use crate::say::say;
use crate::sd::register_sd;
use crate::settings::Settings;
use crate::watches::unwatch;
use dialogue::Stop;
use lookup::Similarity;
use mol_finish::{Format, TextFault};
use molfile_read::MolfileFault;
use par_search::Meter;
use shell_lang::{Command, LineRefusal, MolfileChange, Refusal, Reply, read_command};
use std::alloc::{AllocError, Global};
use std::thread::Threads;
use store_core::{Change, Recorder, Service};
use watch_list::Watches;

/// The state that answers requests: the open cursors, the watches, and buffers that are reused for each request.
#[derive(Drop)]
pub struct Responder {
    pub(crate) recorder: Recorder,
    pub cursors: Cursors,
    pub watches: Watches,
    /// The text of the molfile of the request under way.
    pub molfile: Vec<u8>,
    /// The records of the request under way.
    pub records: SdTexts,
    /// The reply. It has room for a page, so that all lines but those of `show` and `search` find room.
    pub out: Vec<u8>,
}

impl Responder {
    /// A responder without cursors and watches.
    pub fn new(alloc: Global, settings: Settings) -> Result<Responder, AllocError>
        ensures settings { IfOk result (λ responder. responder.cursors.settings ≡ settings) }
        ensures none { IfOk result (λ responder. opened responder.cursors ≡ []) }
        ensures unwatched { IfOk result (λ responder. responder.watches.watches ≡ []) }
    {
        Ok(Responder {
            recorder: Recorder::new(alloc),
            cursors: Cursors::new(alloc, settings),
            watches: Watches::new(alloc),
            molfile: Vec::new(alloc),
            records: SdTexts::new(alloc),
            out: Vec::with_capacity(alloc, ROOM)?,
        })
    }

    /// Answers a request, by `next` and the text of its line. The reply is then in `out`.
    pub(crate) fn answer<R: Threads + Sync, S: Service, M: Meter>(
        &mut self,
        matching: &Matching<'_, R, M>,
        service: &mut S,
        next: Next,
        line: &[u8],
    ) -> Result<(), Stop>
        requires ready { IsReady S.Service service.old self.old.cursors }
        requires request { (request : Request) × IsNext next request line.now self.old.molfile.items
            self.old.records }
        ensures answered { (request : Request) → IsNext next request line.now self.old.molfile.items
            self.old.records → AnsweredBy S.Service service.old service.new
            (RequestAnswer self.old.cursors.settings.page (standing_of self.old) request)
            [] self.new.out.items (standing_of self.new) result }
        ensures fit { IsFit self.new.cursors }
        ensures settings { self.new.cursors.settings ≡ self.old.cursors.settings }
    {
        self.out.clear();
        match next {
            Next::End => Ok(()),
            Next::Long => say(&Reply::Refused(Refusal::Long), &mut self.out),
            Next::Line => self.answer_line(matching.rt, service, matching.meter, line),
            Next::WithMolfile { read, molfile } => self.answer_molfile(service, read, molfile),
            Next::WithRecords { count, first } => {
                self.answer_records(matching.rt, service, count, first)
            }
        }
    }

    /// Answers a line that takes no lines. The reply is then in `out`.
    pub fn answer_line<R: Threads + Sync, S: Service, M: Meter>(
        &mut self,
        rt: &R,
        service: &mut S,
        meter: &M,
        line: &[u8],
    ) -> Result<(), Stop>
        requires ready { IsReady S.Service service.old self.old.cursors }
        requires alone { ¬ TakesLines line.now }
        ensures answered { AnsweredBy S.Service service.old service.new
            (RequestAnswer self.old.cursors.settings.page (standing_of self.old)
            (record { line = Whole line.now; more = [] }))
            [] self.new.out.items (standing_of self.new) result }
        ensures fit { IsFit self.new.cursors }
        ensures settings { self.new.cursors.settings ≡ self.old.cursors.settings }
    {
        self.out.clear();
        let matching = Matching { rt, meter };
        match read_command(line) {
            Ok(command) => self.execute(&matching, service, command),
            Err(refusal) => say(&Reply::Refused(Refusal::Line(refusal)), &mut self.out),
        }
    }

    /// Forgets all cursors and watches, without giving a pin back.
    pub fn forget(&mut self)
        ensures none { opened self.new.cursors ≡ [] }
        ensures unwatched { self.new.watches.watches ≡ [] }
        ensures fit { IsFit self.old.cursors → IsFit self.new.cursors }
        ensures settings { self.new.cursors.settings ≡ self.old.cursors.settings }
    {
        self.cursors.by_name.clear();
        self.watches = Watches::new(self.cursors.alloc);
    }

    // Executes a command that takes no lines.
    fn execute<R: Threads + Sync, S: Service, M: Meter>(
        &mut self,
        matching: &Matching<'_, R, M>,
        service: &mut S,
        command: Command<'_>,
    ) -> Result<(), Stop>
        requires ready { IsReady S.Service service.old self.old.cursors }
        requires line { (line : List ℕ) × Spells line (command_of command) × ¬ TakesLines line }
        ensures answered { (more : List TextLine) → RespondedBy S.Service service.old service.new
            (Allows (standing_of self.old) more (Ok (command_of command.entry)))
            self.old self.new result }
        ensures fit { IsFit self.new.cursors }
        ensures settings { self.new.cursors.settings ≡ self.old.cursors.settings }
    {
        match command {
            Command::Empty => Ok(()),
            Command::Register { id, text } => self.change(service, Verb::Register, id, text),
            Command::Revise { id, text } => self.change(service, Verb::Revise, id, text),
            Command::Withdraw { id } => self.withdraw(service, id),
            Command::Show { id } => show(service, id, &mut self.out),
            Command::Data { id, name } => find_data(service, id, name, &mut self.out),
            Command::Search { pattern } => {
                self.cursors
                    .search(matching, service, pattern, &mut self.out)
            }
            Command::Same { text } => self.same(service, text),
            Command::RegisterNew { id, text } => self.register_new(service, id, text),
            Command::Similar { p, q, k, text } => {
                self.similar(service, Similarity { p, q, k }, text)
            }
            Command::Start { name, pattern } => {
                self.cursors.open(service, name, pattern, &mut self.out)
            }
            Command::Next { name } => self.cursors.next(matching, service, name, &mut self.out),
            Command::Close { name } => self.cursors.close(service, name, &mut self.out),
            Command::Watch { name, text } => self.watch(service, name, text),
            Command::Hits { name } => self.hits(service, name),
            Command::Unwatch { name } => unwatch(&mut self.watches, name, &mut self.out),
            Command::Prune => prune(service, &mut self.out),
            Command::Compact => compact(service, &mut self.out),
            Command::Stats => stats(service, &mut self.out),
            Command::RegisterMol { .. } | Command::ReviseMol { .. } | Command::RegisterSd { .. } =>
                unreachable!(),
        }
    }

    // Registers or revises a SMILES.
    fn change<S: Service>(
        &mut self,
        service: &mut S,
        verb: Verb,
        id: u32,
        text: &[u8],
    ) -> Result<(), Stop>
        requires { IsId id }
        ensures answered { RespondedBy S.Service service.old service.new
            (MayChange (change_by verb id Smiles text.now) Smiles text.now)
            self.old self.new result }
        ensures cursors { self.new.cursors ≡ self.old.cursors }
    {
        let change = TextChange {
            verb,
            id,
            format: Format::Smiles,
        };
        change_text(
            &mut self.recorder,
            &mut self.watches,
            service,
            change,
            text,
            &mut self.out,
        )
    }

    // Withdraws the record of an identifier.
    fn withdraw<S: Service>(&mut self, service: &mut S, id: u32) -> Result<(), Stop>
        ensures answered { RespondedBy S.Service service.old service.new
            (MayAsk (events.Commit (changes.Withdraw id))) self.old self.new result }
        ensures cursors { self.new.cursors ≡ self.old.cursors }
    {
        commit(
            &mut self.watches,
            service,
            Change::Withdraw(id),
            &mut self.out,
        )
    }

    // Answers a line with its molfile.
    fn answer_molfile<S: Service>(
        &mut self,
        service: &mut S,
        read: Result<MolfileChange, LineRefusal>,
        molfile: Part,
    ) -> Result<(), Stop>
        requires { (line : List ℕ) × StartsMolfile line × IsLine line (molfile_command read) }
        ensures answered { (request : Request) (line : List ℕ)
            → IsNext (next.WithMolfile read molfile) request line self.old.molfile.items self.old.records
            → RespondedBy S.Service service.old service.new
            (RequestAllows (standing_of self.old) request) self.old self.new result }
        ensures cursors { self.new.cursors ≡ self.old.cursors }
    {
        match molfile {
            Part::Long { .. } => say(&Reply::Refused(Refusal::Long), &mut self.out),
            Part::Big => {
                let limit = TextFault::Molfile(MolfileFault::Limit);
                say(&line_without_text(read, limit), &mut self.out)
            }
            Part::Lost { .. } => {
                say(&line_without_text(read, TextFault::NoMemory), &mut self.out)
            }
            Part::Text => match read {
                Ok(change) => {
                    let change = text_change(change);
                    change_text(
                        &mut self.recorder,
                        &mut self.watches,
                        service,
                        change,
                        &self.molfile,
                        &mut self.out,
                    )
                }
                Err(refusal) => say(&Reply::Refused(Refusal::Line(refusal)), &mut self.out),
            },
        }
    }

    // Answers a line with its records, and frees their memory.
    fn answer_records<R: Threads + Sync, S: Service>(
        &mut self,
        rt: &R,
        service: &mut S,
        count: u32,
        first: Result<u32, LineRefusal>,
    ) -> Result<(), Stop>
        requires request { (request : Request)
            × IsNext (next.WithRecords count first) request [] self.old.molfile.items self.old.records }
        ensures answered { (request : Request)
            → IsNext (next.WithRecords count first) request [] self.old.molfile.items self.old.records
            → RespondedBy S.Service service.old service.new
            (RequestAllows (standing_of self.old) request) self.old self.new result }
        ensures cursors { self.new.cursors ≡ self.old.cursors }
    {
        let result = self.register_records(rt, service, count, first);
        self.records.begin(false);
        result
    }

    // Registers the records of a line, or refuses the line.
    fn register_records<R: Threads + Sync, S: Service>(
        &mut self,
        rt: &R,
        service: &mut S,
        count: u32,
        first: Result<u32, LineRefusal>,
    ) -> Result<(), Stop>
        requires { (request : Request)
            × IsNext (next.WithRecords count first) request [] self.old.molfile.items self.old.records }
        ensures answered { (request : Request)
            → IsNext (next.WithRecords count first) request [] self.old.molfile.items self.old.records
            → RespondedBy S.Service service.old service.new
            (RequestAllows (standing_of self.old) request) self.old self.new result }
        ensures cursors { self.new.cursors ≡ self.old.cursors }
    {
        match first {
            Ok(first) => register_sd(
                rt,
                &mut self.watches,
                service,
                first,
                count,
                &self.records,
                &mut self.out,
            ),
            Err(refusal) => say(&Reply::Refused(Refusal::Line(refusal)), &mut self.out),
        }
    }
}

// The line of a request with a molfile whose text is not kept, for a cause. A line that is no command is refused first.
fn line_without_text(read: Result<MolfileChange, LineRefusal>, fault: TextFault) -> Reply
    ensures { IsLineWithout fault read (reply_of result) }
{
    match read {
        Ok(_) => refuse_text(fault),
        Err(refusal) => Reply::Refused(Refusal::Line(refusal)),
    }
}

// The change to the text of a molfile.
fn text_change(change: MolfileChange) -> TextChange
    ensures { IsTextChange change result }
{
    match change {
        MolfileChange::Register { id } => TextChange {
            verb: Verb::Register,
            id,
            format: Format::Molfile,
        },
        MolfileChange::Revise { id } => TextChange {
            verb: Verb::Revise,
            id,
            format: Format::Molfile,
        },
    }
}
