//! Events as objects, printed as they come.

use crate::json::{SCHEMA, json_of};
use mrc_report::{EventPrinter, Occurrence, call_text, reply_text};
use mrc_wiring::Wired;
use mrc_words::task_word;
use serde::Serialize;
use std::alloc::{AllocError, Global};

/// An event.
#[derive(Drop, Serialize)]
struct EventObject {
    call: String,
    number: usize,
    reply: String,
    task: String,
}

/// The object of an answer whose events are printed as they come. Its own members are written by
/// hand, since no value holds all events.
#[derive(Clone, Copy)]
pub struct EventObjects<'a> {
    answer: &'static str,
    command: &'static str,
    /// The lines that wait, if the command gives them.
    waits: Option<&'a [u32]>,
}

impl<'a> EventObjects<'a> {
    /// Of a replay.
    pub fn of_replay() -> EventObjects<'a> {
        EventObjects {
            answer: "replay",
            command: "replay",
            waits: None,
        }
    }

    /// Of a run after which all its lines were run.
    pub fn of_run() -> EventObjects<'a> {
        EventObjects {
            answer: "journal",
            command: "live",
            waits: Some(&[]),
        }
    }

    /// Of a run after which no task could go on: these lines wait.
    pub fn of_waiting(lines: &'a [u32]) -> EventObjects<'a> {
        EventObjects {
            answer: "all wait",
            command: "live",
            waits: Some(lines),
        }
    }
}

impl<'a> EventPrinter for EventObjects<'a> {
    fn head(&self, alloc: Global) -> Result<String, AllocError> {
        let EventObjects {
            answer,
            command,
            ..
        } = self;
        format!(in alloc; "{{\"answer\":\"{answer}\",\"command\":\"{command}\",\"events\":[")
    }

    fn event(
        &self,
        alloc: Global,
        wired: &Wired,
        event: &Occurrence<'_>,
    ) -> Result<String, AllocError> {
        let object = EventObject {
            call: call_text(alloc, event.call)?,
            number: event.number,
            reply: reply_text(alloc, event.reply)?,
            task: task_word(alloc, wired, event.task)?,
        };
        let text = json_of(alloc, &object)?;
        let comma = if event.number == 0 { "" } else { "," };
        format!(in alloc; "{comma}{text}")
    }

    fn end(&self, alloc: Global, ports: usize) -> Result<String, AllocError> {
        let waits = match self.waits {
            Some(lines) => {
                let lines = json_of(alloc, &lines)?;
                format!(in alloc; ",\"waits\":{lines}")?
            }
            None => String::new(alloc),
        };
        format!(in alloc; "],\"ports\":{ports},\"schema\":{SCHEMA}{waits}}}\n")
    }
}
