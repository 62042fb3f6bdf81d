//! The rows of what routers may hold, in a network with a prefix and failed links.

ghost use Rattle.std.specs.Prelude.{◌≡◌, true};
ghost use Rattle.abstract_maps.specs.AbstractMap.{IsShort};

use crate::cases::Case;
use crate::ending::{Ending, ended_with};
use crate::labelling::{Labelling, Said, arc_of, said_of};
use crate::results::{result_of, sets_text};
use abstract_maps::{local_row, transfer};
use abstract_route::{BOTTOM, Range, Row, carried, is_below, is_inhabited, join};
use net_types::{Arc, Bits64, List, NoMemory, distance_at};
use ospf_paths::distances;
use outside::OpenGate;
use possible_fixpoint::{Alive, solve_possible};
use std::alloc::Global;
use std::thread::Threads;

// What is asked of rows.
#[derive(Clone, Copy)]
enum Question {
    /// The row of each router's local route.
    Local,
    /// What each router may hold, where nothing has been dropped.
    Possible,
    /// What an arc makes of what its sender may hold.
    Transfer(Arc),
    /// Whether passes over all arcs, until one changes nothing, find what each router may hold.
    Passes,
    /// What the rounds leave: the certain routers, what is alive, and the rows of the last round.
    Result,
}

fn question_of(words: &str) -> Option<Question> {
    match words.split_once(' ') {
        None if words == "local" => Some(Question::Local),
        None if words == "possible" => Some(Question::Possible),
        None if words == "passes" => Some(Question::Passes),
        None if words == "result" => Some(Question::Result),
        Some(("transfer", arc)) => Some(Question::Transfer(arc_of(arc)?)),
        _ => None,
    }
}

// ---- texts

// The ends of a range, or its one number.
fn range_text(alloc: Global, range: Range) -> Result<String, NoMemory> {
    let (low, high) = (range.low, range.high);
    if low == high {
        Ok(format!(in alloc; "{low}")?)
    } else {
        Ok(format!(in alloc; "{low} to {high}")?)
    }
}

// A row, with its sets as words of bits, or that it is of no route.
fn row_text(alloc: Global, row: &Row) -> Result<String, NoMemory> {
    if *row == BOTTOM {
        return Ok(String::from_str(alloc, "none\n")?);
    }
    let weight = range_text(alloc, row.weight)?;
    let preference = range_text(alloc, row.preference)?;
    let length = range_text(alloc, row.length)?;
    let origin = range_text(alloc, row.origin)?;
    let med = range_text(alloc, row.med)?;
    let numbers = format!(in alloc;
        "weight {weight} preference {preference} length {length} origin {origin} med {med}"
    )?;
    let (has, lacks) = (row.has.word(), row.lacks.word());
    let (may, must) = (row.may.word(), row.must.word());
    Ok(format!(in alloc; "{numbers} has {has} lacks {lacks} may {may} must {must}\n")?)
}

fn rows_text(alloc: Global, rows: &[Row]) -> Result<String, NoMemory> {
    let mut text = String::new(alloc);
    for row in rows {
        text.push_str(row_text(alloc, row)?.as_str())?;
    }
    Ok(text)
}

// ---- rows

// Whether the row's paths are as short as `transfer` asks.
fn is_short(row: &Row) -> bool
    ensures { result ≡ true → IsShort row.now }
{
    !is_inhabited(row) || (row.length.low < 4_294_967_296 && row.length.high < 4_294_967_296)
}

impl Labelling {
    // The row of each router's local route.
    fn local_rows(&self, alloc: Global) -> Result<Vec<Row>, NoMemory> {
        let found = distances(alloc, &self.net, self.labels.prefix, self.labels.failed)?;
        self.net.valid();
        let mut rows = Vec::new(alloc);
        for router in 0..self.net.routers().len() {
            let router = router as u8;
            let distance = distance_at(found.as_slice(), router);
            rows.push(local_row(&self.net, self.labels.prefix, router, distance))?;
        }
        Ok(rows)
    }

    // What each router may hold, where nothing has been dropped.
    fn possible<R: Threads + Sync>(&self, rt: &R, alloc: Global) -> Result<List<Row>, NoMemory> {
        let (net, prefix, failed) = (&self.net, self.labels.prefix, self.labels.failed);
        let found = distances(alloc, net, prefix, failed)?;
        let alive = Alive {
            up: Bits64::FULL,
            down: Bits64::FULL,
            locals: Bits64::FULL,
        };
        solve_possible(
            rt,
            alloc,
            net,
            prefix,
            failed,
            found.as_slice(),
            &alive,
            1,
            &OpenGate,
        )
    }

    // What an arc makes of a row.
    fn transferred(&self, arc: Arc, row: &Row) -> Row {
        if is_short(row) {
            transfer(&self.net, self.labels.prefix, arc, row)
        } else {
            BOTTOM
        }
    }

    // Joins what an arc gives into its receiver's row, and says whether that changed it.
    fn visit(&self, rows: &mut [Row], arc: Arc) -> bool {
        if !self.net.is_up(&self.labels.failed, arc) {
            return false;
        }
        let (Some(sender), Some(receiver)) = (self.net.sender_of(arc), self.net.receiver_of(arc))
        else {
            return false;
        };
        let Some(sent) = rows.get(usize::from(sender)) else {
            return false;
        };
        let come = self.transferred(arc, sent);
        if !is_inhabited(&come) {
            return false;
        }
        let given = carried(&come);
        match rows.get_mut(usize::from(receiver)) {
            Some(row) if !is_below(&given, row) => {
                *row = join(row, &given);
                true
            }
            _ => false,
        }
    }

    // One pass over all arcs.
    fn pass(&self, rows: &mut [Row]) -> bool {
        let mut changed = false;
        for arc in self.net.arcs() {
            let raised = self.visit(rows, arc);
            changed = changed || raised;
        }
        changed
    }

    // The rows by passes over all arcs, until one changes nothing.
    fn by_passes(&self, alloc: Global) -> Result<Vec<Row>, NoMemory> {
        let mut rows = self.local_rows(alloc)?;
        for _pass in 0..100_000 {
            if !self.pass(&mut rows) {
                return Ok(rows);
            }
        }
        Ok(rows)
    }

    // Whether passes find the rows, with both where they do not.
    fn compared(&self, alloc: Global, rows: &[Row]) -> Result<String, NoMemory> {
        let found = rows_text(alloc, rows)?;
        let passes = self.by_passes(alloc)?;
        let wanted = rows_text(alloc, passes.as_slice())?;
        if found.as_str() == wanted.as_str() {
            let count = rows.len();
            Ok(format!(in alloc; "{count} rows, the same\n")?)
        } else {
            Ok(format!(in alloc; "{found}by passes\n{wanted}")?)
        }
    }

    // What the rounds leave.
    fn result_text<R: Threads + Sync>(&self, rt: &R, alloc: Global) -> Result<String, NoMemory> {
        let result = result_of(rt, alloc, self)?;
        let sets = sets_text(alloc, &result)?;
        let rows = rows_text(alloc, result.rows())?;
        Ok(format!(in alloc; "{sets}{rows}")?)
    }

    fn row_answer<R: Threads + Sync>(
        &self,
        rt: &R,
        alloc: Global,
        question: Question,
    ) -> Result<String, NoMemory> {
        let rows = self.possible(rt, alloc)?;
        match question {
            Question::Local => rows_text(alloc, self.local_rows(alloc)?.as_slice()),
            Question::Possible => rows_text(alloc, rows.as_slice()),
            Question::Passes => self.compared(alloc, rows.as_slice()),
            Question::Result => self.result_text(rt, alloc),
            Question::Transfer(arc) => {
                let sender = self.net.sender_of(arc).unwrap_or(255);
                match rows.as_slice().get(usize::from(sender)) {
                    Some(row) => row_text(alloc, &self.transferred(arc, row)),
                    None => Ok(String::from_str(alloc, "no arc\n")?),
                }
            }
        }
    }
}

/// How a case ends that asks for rows, of the prefix and the failed links of the file `labels`, in the network of the
/// files in `net/`.
pub fn row_ending<R: Threads + Sync>(
    rt: &R,
    alloc: Global,
    case: &Case,
    words: &str,
) -> Result<Ending, NoMemory> {
    let Some(question) = question_of(words) else {
        return ended_with(alloc, 2, "no question\n");
    };
    match said_of(alloc, case)? {
        Said::Labelling(labelling) => {
            let text = labelling.row_answer(rt, alloc, question)?;
            ended_with(alloc, 0, text.as_str())
        }
        Said::Nothing(why) => ended_with(alloc, 2, why),
    }
}
