//! What routes become, and how far routers are from a prefix, in a network with the labels of its routers.

use crate::cases::Case;
use crate::ending::{Ending, ended_with};
use crate::labelling::{Labelling, Said, arc_of, said_of};
use crate::lines::number_of;
use concrete_algebra::{export, import, local_route, run_map};
use net_types::{Arc, NoMemory, Policy, Route};
use ospf_paths::{distances, is_next_hop, is_tight};
use std::alloc::Global;

// What is asked of a labelling.
#[derive(Clone, Copy)]
enum Question {
    /// What is sent over an arc of the label of the router that it comes from.
    Export(Arc),
    /// What is taken in over an arc of that label, as if it had been sent.
    Import(Arc),
    /// What the first map of the first router gives of its label.
    Map,
    /// What the first router originates, where OSPF has a way of this length, or none.
    Origin(Option<u64>),
    /// The failed links, and each router's label.
    Labels,
    /// The distance of each router, and which arcs are tight or go to next hops.
    Paths,
}

fn question_of(words: &str) -> Option<Question> {
    match words.split_once(' ') {
        None if words == "map" => Some(Question::Map),
        None if words == "origin" => Some(Question::Origin(None)),
        None if words == "labels" => Some(Question::Labels),
        None if words == "paths" => Some(Question::Paths),
        Some(("origin", distance)) => Some(Question::Origin(Some(number_of(distance)?))),
        Some(("export", arc)) => Some(Question::Export(arc_of(arc)?)),
        Some(("import", arc)) => Some(Question::Import(arc_of(arc)?)),
        _ => None,
    }
}

// The path as numbers of routers.
fn path_text(alloc: Global, path: &[u8]) -> Result<String, NoMemory> {
    let mut text = String::from_str(alloc, "path")?;
    for router in path {
        text.push_str(format!(in alloc; " {router}")?.as_str())?;
    }
    Ok(text)
}

// A route, or that there is none; the set of communities is a word of bits.
fn route_text(alloc: Global, route: &Option<Route>) -> Result<String, NoMemory> {
    let Some(route) = route else {
        return Ok(String::from_str(alloc, "none\n")?);
    };
    let path = path_text(alloc, route.path.as_slice())?;
    let (weight, preference, origin, med) = (
        route.weight,
        route.preference,
        route.origin,
        route.med,
    );
    let (held, source) = (route.communities.word(), route.source);
    Ok(format!(in alloc;
        "weight {weight} preference {preference} {path} origin {origin:?} med {med} communities {held} {source:?}\n"
    )?)
}

// That a router whose label is asked for has none.
fn no_label(alloc: Global) -> Result<String, NoMemory> {
    Ok(String::from_str(alloc, "no label\n")?)
}

impl Labelling {
    // The label of the router of this number.
    fn label(&self, router: u8) -> Option<&Route> {
        self.labels
            .labels
            .as_slice()
            .get(usize::from(router))?
            .as_ref()
    }

    // The label of the router that an arc comes from.
    fn label_of_sender(&self, arc: Arc) -> Option<&Route> {
        let ends = self.net.links().get(usize::from(arc.link))?;
        self.label(if arc.down {
            ends.high.router
        } else {
            ends.low.router
        })
    }

    fn exported(&self, alloc: Global, arc: Arc) -> Result<String, NoMemory> {
        match self.label_of_sender(arc) {
            Some(route) => {
                let given = export(alloc, &self.net, self.labels.prefix, arc, route)?;
                route_text(alloc, &given)
            }
            None => no_label(alloc),
        }
    }

    fn imported(&self, alloc: Global, arc: Arc) -> Result<String, NoMemory> {
        match self.label_of_sender(arc) {
            Some(route) => {
                let given = import(alloc, &self.net, self.labels.prefix, arc, route)?;
                route_text(alloc, &given)
            }
            None => no_label(alloc),
        }
    }

    fn mapped(&self, alloc: Global) -> Result<String, NoMemory> {
        let prefix = self.labels.prefix;
        match self.label(0) {
            Some(route) => {
                let given = run_map(alloc, &self.net, 0, Policy::Map(0), prefix, route)?;
                route_text(alloc, &given)
            }
            None => no_label(alloc),
        }
    }

    fn originated(&self, alloc: Global, distance: Option<u64>) -> Result<String, NoMemory> {
        // `local_route` asks for a distance below 2^32.
        let distance = distance.filter(|distance| *distance < 4_294_967_296);
        let given = local_route(alloc, &self.net, self.labels.prefix, 0, distance)?;
        route_text(alloc, &given)
    }

    fn told(&self, alloc: Global) -> Result<String, NoMemory> {
        let failed = self.labels.failed.as_slice();
        let mut text = format!(in alloc; "down {failed:?}\n")?;
        for label in self.labels.labels.as_slice() {
            text.push_str(route_text(alloc, label)?.as_str())?;
        }
        Ok(text)
    }

    // What is to be said of an arc: that it goes to a next hop, or that it is tight alone.
    fn arc_text(&self, alloc: Global, found: &[Option<u64>], arc: Arc) -> Result<String, NoMemory> {
        let (net, prefix, failed) = (&self.net, self.labels.prefix, self.labels.failed);
        let (link, way) = (arc.link, if arc.down { "down" } else { "up" });
        let hop = is_next_hop(net, prefix, failed, found, arc);
        let tight = is_tight(net, failed, found, arc);
        let said = match (hop, tight) {
            (true, true) => "a next hop",
            (false, true) => "tight",
            (true, false) => "a next hop that is not tight",
            (false, false) => return Ok(String::new(alloc)),
        };
        Ok(format!(in alloc; "arc {link} {way} is {said}\n")?)
    }

    // Puts what is to be said of each arc behind the text, of links past the last one too.
    fn push_arcs(
        &self,
        alloc: Global,
        text: &mut String,
        found: &[Option<u64>],
    ) -> Result<(), NoMemory> {
        for link in 0..64 {
            let up = self.arc_text(alloc, found, Arc { link, down: false })?;
            text.push_str(up.as_str())?;
            let down = self.arc_text(alloc, found, Arc { link, down: true })?;
            text.push_str(down.as_str())?;
        }
        Ok(())
    }

    fn paths(&self, alloc: Global) -> Result<String, NoMemory> {
        let found = distances(alloc, &self.net, self.labels.prefix, self.labels.failed)?;
        let mut text = String::new(alloc);
        for distance in found.as_slice() {
            text.push_str(format!(in alloc; "distance {distance:?}\n")?.as_str())?;
        }
        self.push_arcs(alloc, &mut text, found.as_slice())?;
        Ok(text)
    }

    fn answer(&self, alloc: Global, question: Question) -> Result<String, NoMemory> {
        match question {
            Question::Export(arc) => self.exported(alloc, arc),
            Question::Import(arc) => self.imported(alloc, arc),
            Question::Map => self.mapped(alloc),
            Question::Origin(distance) => self.originated(alloc, distance),
            Question::Labels => self.told(alloc),
            Question::Paths => self.paths(alloc),
        }
    }
}

/// How a case ends that asks what becomes of the labels of the file `labels`, in the network of the files in `net/`.
pub fn route_ending(alloc: Global, case: &Case, words: &str) -> Result<Ending, NoMemory> {
    let Some(question) = question_of(words) else {
        return ended_with(alloc, 2, "no question\n");
    };
    match said_of(alloc, case)? {
        Said::Labelling(labelling) => {
            let text = labelling.answer(alloc, question)?;
            ended_with(alloc, 0, text.as_str())
        }
        Said::Nothing(why) => ended_with(alloc, 2, why),
    }
}
