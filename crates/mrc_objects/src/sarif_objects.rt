//! The objects of SARIF 2.1.0 (OASIS Standard, 27 March 2020) that are printed.

use percent_encoding::{AsciiSet, NON_ALPHANUMERIC, ascii_set, utf8_percent_encode};
use serde::Serialize;
use std::alloc::{AllocError, Global};

/// The bytes of a name that are escaped in a URI.
const ESCAPED: AsciiSet = ascii_set!(
    NON_ALPHANUMERIC
        .remove(b'-')
        .remove(b'.')
        .remove(b'_')
        .remove(b'~')
        .remove(b'/')
);

/// A message.
#[derive(Drop, Serialize)]
pub(crate) struct Message {
    pub(crate) text: String,
}

/// A file.
#[derive(Drop, Serialize)]
struct Artifact {
    uri: String,
}

/// A region of a file: a line, or what begins at a column of it.
#[derive(Clone, Copy, Serialize)]
#[serde(rename_all = "camelCase")]
pub(crate) struct Region {
    #[serde(skip_serializing_if = "Option::is_none")]
    pub(crate) start_column: Option<usize>,
    pub(crate) start_line: u32,
}

/// A region of a file, or the whole file.
#[derive(Drop, Serialize)]
#[serde(rename_all = "camelCase")]
struct PhysicalLocation {
    artifact_location: Artifact,
    #[serde(skip_serializing_if = "Option::is_none")]
    region: Option<Region>,
}

/// A location, and what is at it.
#[derive(Drop, Serialize)]
#[serde(rename_all = "camelCase")]
pub(crate) struct Location {
    #[serde(skip_serializing_if = "Option::is_none")]
    message: Option<Message>,
    physical_location: PhysicalLocation,
}

/// A location in a thread flow.
#[derive(Drop, Serialize)]
pub(crate) struct FlowLocation {
    pub(crate) location: Location,
}

/// A thread flow.
#[derive(Drop, Serialize)]
pub(crate) struct ThreadFlow {
    pub(crate) locations: Vec<FlowLocation>,
}

/// A code flow of one thread flow.
#[derive(Drop, Serialize)]
#[serde(rename_all = "camelCase")]
pub(crate) struct CodeFlow {
    pub(crate) thread_flows: (ThreadFlow,),
}

/// Why a result is let pass.
#[derive(Drop, Serialize)]
pub(crate) struct Suppression {
    pub(crate) justification: String,
    pub(crate) kind: &'static str,
}

/// What is found: its chain, if it has one, its place, what is printed of it, the id and the number
/// of a rule, and why it is let pass. Of a run either all results say so or none does.
#[derive(Drop, Serialize)]
#[serde(rename_all = "camelCase")]
pub(crate) struct ResultObject {
    #[serde(skip_serializing_if = "Option::is_none")]
    pub(crate) code_flows: Option<(CodeFlow,)>,
    pub(crate) level: &'static str,
    pub(crate) locations: (Location,),
    pub(crate) message: Message,
    pub(crate) rule_id: &'static str,
    pub(crate) rule_index: u8,
    #[serde(skip_serializing_if = "Option::is_none")]
    pub(crate) suppressions: Option<Vec<Suppression>>,
}

/// A notification.
#[derive(Drop, Serialize)]
pub(crate) struct Notification {
    pub(crate) level: &'static str,
    pub(crate) locations: Vec<Location>,
    pub(crate) message: Message,
}

/// An invocation: whether it was successful, its status, and its notifications.
#[derive(Drop, Serialize)]
#[serde(rename_all = "camelCase")]
pub(crate) struct Invocation {
    pub(crate) execution_successful: bool,
    pub(crate) exit_code: u8,
    pub(crate) tool_execution_notifications: Vec<Notification>,
}

/// What a rule means.
#[derive(Clone, Copy, Serialize)]
struct Description {
    text: &'static str,
}

/// A rule by which something is found: its id, what it means if something is, its number among
/// those of the tool, and what is printed behind a fact.
#[derive(Clone, Copy, Serialize)]
#[serde(rename_all = "camelCase")]
pub(crate) struct Rule {
    pub(crate) id: &'static str,
    short_description: Description,
    #[serde(skip)]
    pub(crate) index: u8,
    #[serde(skip)]
    pub(crate) behind_fact: &'static str,
}

/// No task may come to hold what the policy forbids.
pub(crate) const FORBIDDEN: Rule = Rule {
    id: "forbidden",
    short_description: Description {
        text: "A task may come to hold what the policy forbids",
    },
    index: 0,
    behind_fact: " can come about: this line forbids it",
};

/// No other task may be able to rewrite a trusted one.
pub(crate) const TRUSTED: Rule = Rule {
    id: "trusted",
    short_description: Description {
        text: "Another task could rewrite a trusted one",
    },
    index: 1,
    behind_fact: " can come about: another task could rewrite the one that this line trusts",
};

/// What the policy expects has to be able to come about.
pub(crate) const EXPECTED: Rule = Rule {
    id: "expected",
    short_description: Description {
        text: "A task can't come to hold what the policy expects",
    },
    index: 2,
    behind_fact: " can't come about: this line expects it",
};

/// The program, and its rules in the order of their numbers.
#[derive(Clone, Copy, Serialize)]
pub(crate) struct Driver {
    pub(crate) name: &'static str,
    pub(crate) rules: (Rule, Rule, Rule),
}

/// The tool.
#[derive(Clone, Copy, Serialize)]
pub(crate) struct Tool {
    pub(crate) driver: Driver,
}

/// A run of the tool.
#[derive(Drop, Serialize)]
#[serde(rename_all = "camelCase")]
pub(crate) struct Run {
    pub(crate) column_kind: &'static str,
    pub(crate) invocations: (Invocation,),
    pub(crate) results: Vec<ResultObject>,
    pub(crate) tool: Tool,
}

/// A log of one run.
#[derive(Drop, Serialize)]
pub(crate) struct LogObject {
    #[serde(rename = "$schema")]
    pub(crate) schema: &'static str,
    pub(crate) runs: (Run,),
    pub(crate) version: &'static str,
}

/// The location of this region of a file, or of the whole file, and what is at it.
pub(crate) fn location_of(
    alloc: Global,
    file: &str,
    region: Option<Region>,
    message: Option<Message>,
) -> Result<Location, AllocError> {
    let mut uri = String::new(alloc);
    utf8_percent_encode(file, ESCAPED).append_to(&mut uri)?;
    let artifact_location = Artifact { uri };
    let physical_location = PhysicalLocation {
        artifact_location,
        region,
    };
    Ok(Location {
        message,
        physical_location,
    })
}
