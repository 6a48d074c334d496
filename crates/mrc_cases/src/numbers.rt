//! Dispositions by their numbers.

use anyhow::Result;
use mrc_base::{Disp, give, is_port_number, need};
use std::alloc::Global;

/// The disposition of a number, the right that it needs and the right that it gives.
pub fn disposition(alloc: Global, text: &str) -> Result<String> {
    let number: u16 = text.parse()?;
    let is_port = is_port_number(number);
    Ok(match Disp::of_number(number) {
        None => format!(in alloc; "none, port {is_port}")?,
        Some(disp) => {
            let (needs, gives) = (need(disp), give(disp));
            let number = disp.number();
            format!(in alloc; "{number} {disp:?} {needs:?} {gives:?}, port {is_port}")?
        }
    })
}
