//! The logs of SARIF that are printed.

use crate::json::json_text;
use crate::json_faults::{FaultParts, parts_text};
use crate::line_names::LineNames;
use crate::lines::lines_on;
use crate::sarif_objects::{
    Driver, EXPECTED, FORBIDDEN, Invocation, Location, LogObject, Message, Notification, Region,
    ResultObject, Run, TRUSTED, Tool, location_of,
};
use crate::sarif_places::Placed;
use crate::sarif_results::result_objects;
use mrc_check::Demand;
use mrc_place::Hint;
use mrc_why::Verdict;
use mrc_wide_policy::PolicyStands;
use std::alloc::{AllocError, Global};

/// The text of a message: `{` and `}` are doubled, since a message may have placeholders.
fn doubled(alloc: Global, text: &str) -> Result<String, AllocError> {
    let mut doubled = String::new(alloc);
    for c in text.chars() {
        doubled.push(c)?;
        if c == '{' || c == '}' {
            doubled.push(c)?;
        }
    }
    Ok(doubled)
}

/// A notification.
fn notification(
    alloc: Global,
    level: &'static str,
    locations: Vec<Location>,
    text: &str,
) -> Result<Notification, AllocError> {
    let text = doubled(alloc, text)?;
    Ok(Notification {
        level,
        locations,
        message: Message { text },
    })
}

/// The notifications of what goes to standard error with a yes or a no.
fn notices(alloc: Global, err: &str) -> Result<Vec<Notification>, AllocError> {
    lines_on(alloc, err)?
        .iter()
        .map(|line| notification(alloc, "warning", Vec::new(alloc), *line))
        .try_collect(alloc)
}

/// The text of the log of a run with this status.
fn log_text(
    alloc: Global,
    status: u8,
    notifications: Vec<Notification>,
    results: Vec<ResultObject>,
) -> Result<String, AllocError> {
    let invocation = Invocation {
        execution_successful: status != 2,
        exit_code: status,
        tool_execution_notifications: notifications,
    };
    let driver = Driver {
        name: "machcheck",
        rules: (FORBIDDEN, TRUSTED, EXPECTED),
    };
    let run = Run {
        column_kind: "unicodeCodePoints",
        invocations: (invocation,),
        results,
        tool: Tool { driver },
    };
    let log = LogObject {
        schema: "https://json.schemastore.org/sarif-2.1.0.json",
        runs: (run,),
        version: "2.1.0",
    };
    json_text(alloc, &log)
}

/// The log of a yes: no results, and a notification for each line on standard error (`err`).
pub fn yes_sarif(alloc: Global, err: &str) -> Result<String, AllocError> {
    let notices = notices(alloc, err)?;
    log_text(alloc, 0, notices, Vec::new(alloc))
}

/// The log of a verdict that is no yes: a result for the trusted task that another could rewrite,
/// at its line of the wiring, and one for each broken line, at this line of the policy; or, with
/// `only`, for the broken lines of this number alone. The chain of each is its code flow. Each line
/// on standard error (`err`) is a notification. There are results too for what is waived, each with its
/// suppression, and for what is expected and lacking.
pub fn broken_sarif(
    placed: &Placed<'_>,
    (only, status): (Option<u32>, u8),
    verdict: &Verdict,
    (stands, told): (&PolicyStands, &[Demand]),
    err: &str,
) -> Result<String, AllocError> {
    let names = LineNames::of(placed.alloc, stands)?;
    let results = result_objects(placed, only, verdict, told, &names)?;
    let notices = notices(placed.alloc, err)?;
    log_text(placed.alloc, status, notices, results)
}

/// The locations of a fault: none if it has no file. A name that begins with `--` is an option's.
fn fault_locations(
    alloc: Global,
    file: Option<&str>,
    hint: &Hint,
) -> Result<Vec<Location>, AllocError> {
    let region = hint.spot.as_ref().map(|spot| Region {
        start_column: Some(spot.column()),
        start_line: spot.line,
    });
    match file {
        Some(file) if !file.starts_with("--") => {
            let location = location_of(alloc, file, region, None)?;
            Ok(vec![in alloc; location]?)
        }
        _ => Ok(Vec::new(alloc)),
    }
}

/// The log of a fault, by its parts and by what helps with it: no results, and a notification at
/// the hint's spot of the file.
pub fn fault_sarif(alloc: Global, parts: &FaultParts, hint: &Hint) -> Result<String, AllocError> {
    let locations = fault_locations(alloc, parts.file(), hint)?;
    let text = parts_text(alloc, parts)?;
    let fault = notification(alloc, "error", locations, text.as_str())?;
    let notifications = vec![in alloc; fault]?;
    log_text(alloc, 2, notifications, Vec::new(alloc))
}
