//! Lookups of a session: records with the structure of a text, and those most similar to it.
ghost use Rattle.std.specs.Prelude.{◌≡◌, ◌≤◌, ◌++◌, ◌^◌, IfOk, List, OnErr, OnOk, map};
ghost use Rattle.mol_finish.specs.declared.fault.Format.TheVariants.{Smiles};
ghost use Rattle.shell_lang.specs.Command.{IsSimilarity};
ghost use Rattle.shell_lang.specs.Reply.{text_of};
ghost use Rattle.shell_lang.specs.Written.{Extends};
ghost use Rattle.store_machine.specs.History.{IsId};
ghost use Rattle.session_acts.specs.Acts.{MayRegisterNew, MaySame, MaySimilar, like_line, same_lines, similar_lines};
ghost use Rattle.session_run.specs.Made.{TellsAll};
ghost use Rattle.session_run.specs.Responds.{IsFit, RespondedBy};

use crate::commands::{commit, refuse_text};
use crate::listing::push_hits;
use crate::respond::Responder;
use crate::say::{say, say_given};
use crate::search::fault_line;
use crate::texts::record_is_sound;
use dialogue::Stop;
use lookup::{HitList, SimilarList, Similarity, find_same, find_similar};
use mol_finish::Format;
use shell_lang::{Refusal, Reply, reply_text};
use std::alloc::AllocError;
use store_core::{Change, Service};

impl Responder {
    /// Lists the records with the structure of a text.
    pub(crate) fn same<S: Service>(&mut self, service: &mut S, text: &[u8]) -> Result<(), Stop>
        requires { IsFit self.old.cursors }
        ensures answered { RespondedBy S.Service service.old service.new (MaySame text.now)
            self.old self.new result }
        ensures cursors { self.new.cursors ≡ self.old.cursors }
    {
        let record = match self.recorder.record(1, Format::Smiles, text) {
            Ok(record) => record,
            Err(fault) => return say(&refuse_text(fault), &mut self.out),
        };
        record_is_sound(&record);
        let page = self.cursors.settings.page;
        match find_same(self.cursors.alloc, service, &record, page) {
            Ok(list) => say_same(&list, &mut self.out),
            Err(fault) => say_given(fault_line(fault), &mut self.out),
        }
    }

    /// Registers a text, unless a live record has the same structure.
    pub(crate) fn register_new<S: Service>(
        &mut self,
        service: &mut S,
        id: u32,
        text: &[u8],
    ) -> Result<(), Stop>
        requires fit { IsFit self.old.cursors }
        requires id { IsId id }
        ensures answered { RespondedBy S.Service service.old service.new
            (MayRegisterNew id text.now) self.old self.new result }
        ensures cursors { self.new.cursors ≡ self.old.cursors }
    {
        let record = match self.recorder.record(id, Format::Smiles, text) {
            Ok(record) => record,
            Err(fault) => return say(&refuse_text(fault), &mut self.out),
        };
        record_is_sound(&record);
        let page = self.cursors.settings.page;
        match find_same(self.cursors.alloc, service, &record, page) {
            Ok(list) => match list.hits.first() {
                Some(id) => say(&Reply::Refused(Refusal::Same { id: *id }), &mut self.out),
                None => commit(
                    &mut self.watches,
                    service,
                    Change::Register(record),
                    &mut self.out,
                ),
            },
            Err(fault) => say_given(fault_line(fault), &mut self.out),
        }
    }

    /// Lists the records most similar to the structure of a text.
    pub(crate) fn similar<S: Service>(
        &mut self,
        service: &mut S,
        asked: Similarity,
        text: &[u8],
    ) -> Result<(), Stop>
        requires fit { IsFit self.old.cursors }
        requires asked { IsSimilarity asked.p asked.q asked.k }
        ensures answered { RespondedBy S.Service service.old service.new
            (MaySimilar asked.p asked.q asked.k text.now) self.old self.new result }
        ensures cursors { self.new.cursors ≡ self.old.cursors }
    {
        let record = match self.recorder.record(1, Format::Smiles, text) {
            Ok(record) => record,
            Err(fault) => return say(&refuse_text(fault), &mut self.out),
        };
        record_is_sound(&record);
        let page = self.cursors.settings.page;
        match find_similar(self.cursors.alloc, service, asked, &record, page) {
            Ok(list) => say_similar(&list, &mut self.out),
            Err(fault) => say_given(fault_line(fault), &mut self.out),
        }
    }
}

// Writes the records with the same structure, or that memory ran out.
fn say_same(list: &HitList, out: &mut Vec<u8>) -> Result<(), Stop>
    ensures { TellsAll (same_lines list.now) out.old.items out.new.items result }
{
    let len = out.len();
    if push_same(list, out).is_ok() {
        return Ok(());
    }
    out.truncate(len);
    say(&Reply::MemoryFault, out)
}

fn push_same(list: &HitList, out: &mut Vec<u8>) -> Result<(), AllocError>
    ensures ok { OnOk result (out.new.items ≡ out.old.items ++ text_of (same_lines list.now)) }
    ensures err { OnErr result (Extends out.old.items out.new.items) }
{
    push_hits(&list.hits, out)?;
    let end = Reply::End {
        version: list.version,
        tried: list.tried,
        hits: count(list.hits.len())?,
    };
    reply_text(&end, out)
}

// Writes the most similar records, or that memory ran out.
fn say_similar(list: &SimilarList, out: &mut Vec<u8>) -> Result<(), Stop>
    ensures { TellsAll (similar_lines list.now) out.old.items out.new.items result }
{
    let len = out.len();
    if push_similar(list, out).is_ok() {
        return Ok(());
    }
    out.truncate(len);
    say(&Reply::MemoryFault, out)
}

fn push_similar(list: &SimilarList, out: &mut Vec<u8>) -> Result<(), AllocError>
    ensures ok { OnOk result (out.new.items ≡ out.old.items ++ text_of (similar_lines list.now)) }
    ensures err { OnErr result (Extends out.old.items out.new.items) }
{
    let likes = list.best.list();
    push_likes(likes, out)?;
    let end = Reply::Scored {
        version: list.version,
        scored: list.scored,
        hits: count(likes.len())?,
    };
    reply_text(&end, out)
}

// Appends a line for each hit.
fn push_likes(likes: &[(u32, u32, u32)], out: &mut Vec<u8>) -> Result<(), AllocError>
    ensures ok { OnOk result (out.new.items ≡ out.old.items ++ text_of (map like_line likes.now)) }
    ensures err { OnErr result (Extends out.old.items out.new.items) }
{
    for like in likes {
        let (id, c, u) = *like;
        reply_text(&Reply::Like { id, c, u }, out)?;
    }
    Ok(())
}

/// A length as the count of a line. It fits for each list of a store.
pub fn count(len: usize) -> Result<u32, AllocError>
    ensures ok { IfOk result (λ n. n ≡ len) }
    ensures err { OnErr result (2 ^ 32 ≤ len) }
{
    match u32::try_from(len) {
        Ok(n) => Ok(n),
        Err(_) => Err(AllocError),
    }
}
