//! The picture of a run: its lanes with their signs, and texts above and below.

use crate::labels::Labels;
use crate::lane_shape::{write_band, write_lane, write_name};
use crate::layout::{ACCEPTED_TOP, BATCHES, CHECKPOINTS, CLIENTS_BOTTOM, CLIENTS_TOP, Layout};
use crate::legend::{Legend, write_legend};
use crate::mark::{Mark, Wait};
use crate::marks::{Marks, marks_of};
use crate::name::Name;
use crate::recovered::Answered;
use crate::scale::{EDGE, Scale};
use crate::shape::{write_signs, write_waits};
use crate::stop_text::{Numbers, StopText, write_stop};
use crate::unsynced::unsynced_spans;
use iol_disk::Pick;
use iol_explain::Explained;
use iol_journal::Geometry;
use iol_script::Script;
use std::alloc::{AllocError, Global};
use std::fmt;

// The least width of a picture, so that the lines below its lanes fit.
const LEAST_WIDTH: usize = 960;
// The distance from the top of the picture down to the title, and that between the texts below the lanes and the legend.
const TITLE: usize = 20;

const APART: usize = 8;
// The distance from the middle of a row down to its name.
const NAME: usize = 4;

// Draws a script's run in SVG (docs/FORMATS.md, "Pictures of runs"), with the numbers of the last commands that are recovered
// after each kind of stop.
pub(crate) fn picture_of(
    alloc: Global,
    name: &str,
    run: &Explained,
    script: &Script,
    numbers: Numbers,
) -> Result<String, AllocError> {
    let text = run.to_string(alloc)?;
    let lines: Vec<&str> = text.as_str().lines().collect(alloc)?;
    let stop = StopText {
        keep: script.keep,
        numbers,
        answered: Answered::of(&run.events),
        unsynced: unsynced_spans(alloc, run)?,
    };
    drawn(
        alloc,
        Name::of(name),
        run,
        &Labels::of(&script.steps),
        &lines,
        stop,
    )
}

// Draws a run with these lines.
fn drawn(
    alloc: Global,
    name: Name<'_>,
    run: &Explained,
    labels: &Labels,
    lines: &[&str],
    stop: StopText,
) -> Result<String, AllocError> {
    let marks = marks_of(alloc, run, lines)?;
    let scale = Scale::of(marks.columns, labels.longest());
    let legend = Legend::of(alloc, &marks, LEAST_WIDTH.max(scale.end()))?;
    let Marks {
        signs,
        waits,
        ports,
        ..
    } = marks;
    let picture = Picture {
        name,
        geometry: run.geometry,
        lines,
        layout: Layout::of(alloc, scale, labels, ports)?,
        signs,
        waits,
        stop,
        legend,
    };
    picture.to_string(alloc)
}

// What a picture shows: a run's marks, with their lines, and what its stop leaves.
#[derive(Drop)]
struct Picture<'a> {
    name: Name<'a>,
    geometry: Geometry,
    lines: &'a [&'a str],
    layout: Layout<'a>,
    signs: Vec<Mark>,
    waits: Vec<Wait>,
    stop: StopText,
    legend: Legend,
}

impl Picture<'_> {
    fn width(&self) -> usize {
        self.layout
            .scale
            .end()
            .saturating_add(EDGE)
            .max(LEAST_WIDTH)
    }

    // Returns the height at which the texts of the stop end, and the legend begins.
    fn legend_top(&self) -> usize {
        self.layout
            .bottom()
            .saturating_add(self.stop.height())
            .saturating_add(APART)
    }

    fn height(&self) -> usize {
        self.legend_top()
            .saturating_add(self.legend.height())
            .saturating_add(APART)
    }
}

impl fmt::Display for Picture<'_> {
    fn fmt<W: fmt::Write>(&self, f: &mut fmt::Formatter<W>) -> fmt::Result {
        write_head(f, self.width(), self.height())?;
        write_front(f, self.name, self.geometry, self.layout.scale.end())?;
        write_lanes(f, self.lines, &self.layout)?;
        write_waits(f, self.layout.scale, &self.waits)?;
        write_signs(f, &self.layout, self.lines, &self.signs)?;
        write_end(f, self.layout.scale.end(), self.layout.bottom())?;
        write_stop(f, self.layout.bottom(), &self.stop)?;
        write_legend(f, self.legend_top(), &self.legend)?;
        f.write_str("</svg>\n")
    }
}

// Writes the head of a picture of this size, and its background. A picture is as wide as the page that shows it, and no wider
// than its size.
fn write_head<W: fmt::Write>(
    f: &mut fmt::Formatter<W>,
    width: usize,
    height: usize,
) -> fmt::Result {
    f.write_str("<svg xmlns='http://www.w3.org/2000/svg' width='100%' ")?;
    write!(
        f,
        "viewBox='0 0 {width} {height}' style='max-width:{width}px;height:auto' "
    )?;
    f.write_str("font-family='sans-serif' font-size='11'>\n")?;
    writeln!(f, "<rect width='{width}' height='{height}' fill='white'/>")
}

// Writes the title, and the words that name the stop, above its line.
fn write_front<W: fmt::Write>(
    f: &mut fmt::Formatter<W>,
    name: Name<'_>,
    geometry: Geometry,
    end: usize,
) -> fmt::Result {
    let (ports, slots) = (geometry.ports(), geometry.slots());
    let word = if ports == 1 { "port" } else { "ports" };
    writeln!(
        f,
        "<text class='title' x='{EDGE}' y='{TITLE}' font-size='13'>{name}: {ports} {word}, {slots} slots</text>"
    )?;
    writeln!(
        f,
        "<text x='{end}' y='{TITLE}' text-anchor='end'>the power stops</text>"
    )
}

// Writes the lanes of the clients, of all ports and of the disk, without their signs.
fn write_lanes<W: fmt::Write>(
    f: &mut fmt::Formatter<W>,
    lines: &[&str],
    layout: &Layout,
) -> fmt::Result {
    write_band(f, layout.scale, CLIENTS_TOP, CLIENTS_BOTTOM)?;
    write_name(f, ACCEPTED_TOP + NAME, "clients")?;
    for lane in &layout.lanes {
        write_lane(f, layout.scale, lines, lane)?;
    }
    let top = layout.disk_top.saturating_add(NAME);
    write_band(f, layout.scale, layout.disk_top, layout.bottom())?;
    write_name(f, top.saturating_add(BATCHES), "disk: batches")?;
    write_name(f, top.saturating_add(CHECKPOINTS), "checkpoints")
}

// Writes the stop, a dashed line at the end of all lanes.
fn write_end<W: fmt::Write>(f: &mut fmt::Formatter<W>, left: usize, bottom: usize) -> fmt::Result {
    writeln!(
        f,
        "<path class='stop' d='M{left} {CLIENTS_TOP}V{bottom}' stroke='black' stroke-dasharray='4 3' fill='none'/>"
    )
}
