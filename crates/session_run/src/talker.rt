//! A session as a dialogue: a responder, and the request under way.
ghost use Rattle.session_run.specs.TalkLaws.{closable, made_more, uses-none};
ghost use Rattle.session_run.specs.Talks.{AnswersAsked, CanAnswer, talks};

use crate::matching::Matching;
use crate::request::Taking;
use crate::respond::Responder;
use dialogue::{Stop, Talk};
use par_search::Meter;
use std::thread::Threads;
use store_core::Service;

/// A session under way.
#[derive(Drop)]
pub struct Talker {
    pub responder: Responder,
    pub taking: Taking,
}

impl<S: Service> Talk<S> for Talker {
    ghost talk = { talks S.Service };

    fn add(&mut self, line: &[u8]) -> bool {
        let responder = &mut self.responder;
        self.taking
            .add(line, &mut responder.molfile, &mut responder.records)
    }

    fn add_long(&mut self, size: u64) -> bool {
        self.taking
            .add_long(size, &self.responder.molfile, &self.responder.records)
    }

    fn reply(&self) -> &[u8] {
        &self.responder.out
    }

    fn close(&mut self, service: &mut S) -> Result<(), Stop> {
        self.responder.cursors.close_all(service)
    }

    ghost made_none = { uses-none S.stays };

    ghost made_more = { made_more S.joins S.lands S.same };

    ghost can_close = { λ x p kept lines n h. closable x p kept lines h };
}

impl Talker {
    /// Answers the request under way, by the text of its last line. The reply is then in `responder.out`.
    pub fn answer<R: Threads + Sync, S: Service, M: Meter>(
        &mut self,
        matching: &Matching<'_, R, M>,
        service: &mut S,
        line: &[u8],
    ) -> Result<(), Stop>
        requires { CanAnswer S.Service self.old service.old line.now }
        ensures { AnswersAsked S.Service result self.old self.new service.old service.new line.now }
    {
        let taking = self.taking;
        self.taking = Taking::new();
        let next = taking.finish(&self.responder.molfile, &mut self.responder.records);
        self.responder.answer(matching, service, next, line)
    }
}
