//! Wirings over MIG texts.

use crate::samples::sample;
use anyhow::Result;
use mrc_base::OrMemory;
use mrc_forms::Interface;
use mrc_interface::{DefsFault, read_interface};
use mrc_wiring::Wired;
use mrc_wiring_text::{Edition, WiringLine, read_wiring, wiring_edition};
use std::alloc::Global;

/// The first part of a text, up to `|`, and what is behind it.
pub fn first_part(text: &str) -> (&str, &str) {
    text.split_once('|').unwrap_or((text, ""))
}

/// The tables of MIG texts that have a `&` between them.
fn interfaces_of(alloc: Global, list: &str) -> Result<Vec<Interface>, OrMemory<DefsFault>> {
    let mut interfaces = Vec::new(alloc);
    for text in list.split('&') {
        if !text.is_empty() {
            interfaces.push(read_interface(alloc, sample(text).as_bytes())?)?;
        }
    }
    Ok(interfaces)
}

/// The wiring of lines over the tables of MIG texts.
fn resolved(
    alloc: Global,
    edition: Edition,
    lines: &[WiringLine],
    interfaces: Vec<Interface>,
) -> Result<Wired> {
    match Wired::resolve(alloc, edition, lines, interfaces) {
        Ok(wired) => Ok(wired),
        Err(refused) => Err(refused.why.into()),
    }
}

/// The wiring of a text over MIG texts that have a `&` between them.
pub fn wired_of(alloc: Global, list: &str, wiring: &str) -> Result<Wired> {
    let text = sample(wiring).as_bytes();
    let edition = wiring_edition(alloc, text)?;
    let lines = read_wiring(alloc, text)?;
    resolved(
        alloc,
        edition,
        lines.as_slice(),
        interfaces_of(alloc, list)?,
    )
}
