//! A network with the labels of its routers, as a case says them.

use crate::cases::Case;
use crate::ending::files_in;
use crate::lines::number_of;
use bundle_reader::read_bundle;
use label_file::{Labels, read_labels};
use net_types::{Arc, Net, NoMemory};
use std::alloc::Global;

/// A network, and what its label file says.
#[derive(Drop)]
pub struct Labelling {
    pub net: Net,
    pub labels: Labels,
}

/// What a case says, or why it says none.
#[derive(Drop)]
pub enum Said {
    Labelling(Labelling),
    Nothing(&'static str),
}

/// The arc of a link's number and `up` or `down`.
pub fn arc_of(text: &str) -> Option<Arc> {
    let (link, way) = text.split_once(' ')?;
    let link = u8::try_from(number_of(link)?).ok()?;
    match way {
        "up" => Some(Arc { link, down: false }),
        "down" => Some(Arc { link, down: true }),
        _ => None,
    }
}

// The text of the file of the labels, without a byte where there is none.
fn label_text(case: &Case) -> &str {
    let file = case
        .files
        .iter()
        .find(|file| file.path.as_str() == "labels");
    file.map_or("", |file| file.text.as_str())
}

/// The network of the files in `net/`, and what the file `labels` says of it.
pub fn said_of(alloc: Global, case: &Case) -> Result<Said, NoMemory> {
    let files = files_in(alloc, case.files.as_slice(), "net/")?;
    let Ok(net) = read_bundle(alloc, files.as_slice()) else {
        return Ok(Said::Nothing("no network\n"));
    };
    let Ok(labels) = read_labels(alloc, &net, label_text(case).as_bytes()) else {
        return Ok(Said::Nothing("no labels\n"));
    };
    Ok(Said::Labelling(Labelling { net, labels }))
}
