//! A session over any service.
ghost use Rattle.std.specs.Prelude.{◌≡◌, ◌≢◌};
ghost use Rattle.store_core.specs.Calls.{NotRaised, SameHeld};
ghost use Rattle.session_acts.specs.Cursors.{Calls, Makes};
ghost use Rattle.session_acts.specs.Served.{EndsAs, IsServedBy};
ghost use Rattle.session_run.specs.Servable.{IsServable};
ghost use Rattle.session_run.specs.Talks.{AnswersAsked, CanAnswer};

use crate::matching::Matching;
use crate::request::Taking;
use crate::respond::Responder;
use crate::settings::Settings;
use crate::talker::Talker;
use dialogue::{EndStatus, Stop, talk};
use io_edge::{Sink, Source};
use par_search::Meter;
use std::alloc::Global;
use std::thread::Threads;
use store_core::Service;

/// Answers the requests of a source into a sink, each before more is read, and takes no more bytes than `input_limit`.
/// At the end the pins of the cursors that are still open are given back, unless the service is worn.
pub fn session<R: Threads + Sync, S: Service, I: Source, O: Sink, M: Meter>(
    rt: &R,
    alloc: Global,
    service: &mut S,
    source: &mut I,
    sink: &mut O,
    settings: &Settings,
    meter: &M,
) -> EndStatus
    requires servable { IsServable settings.now }
    ensures serves { (calls : Calls) × Makes S.at S.owns S.stretch service.old service.new calls
        × IsServedBy result settings.now.page (I.left source.old) (I.left source.new)
        (O.written sink.old) (O.written sink.new) calls }
    ensures pins { result ≢ EndStatus.Worn → SameHeld (S.holds service.old) (S.holds service.new) }
    ensures worn { result ≡ EndStatus.Worn → S.worn service.new }
    ensures ends { EndsAs I.Source O.Sink result settings.now.input_limit source.old source.new sink.old sink.new }
    ensures bounds { NotRaised (S.bounds service.old) (S.bounds service.new) }
{
    let Ok(responder) = Responder::new(alloc, *settings) else {
        return EndStatus::NoMemory;
    };
    let mut talker = Talker {
        responder,
        taking: Taking::new(),
    };
    let matching = Matching { rt, meter };
    let answer = |talker: &mut Talker, service: &mut S, line: &[u8]| -> Result<(), Stop>
        requires { CanAnswer S.Service talker.old service.old line.now }
        ensures { AnswersAsked S.Service result talker.old talker.new service.old service.new line.now }
    { talker.answer(&matching, service, line) };
    talk(
        alloc,
        &mut talker,
        service,
        &answer,
        source,
        sink,
        settings.input_limit,
    )
}
