// From a site text to the record of its drive.
ghost use Rattle.std.specs.Prelude.{◌≡◌, ◌+◌, ◌≤◌, length, IfOk};
ghost use Rattle.filing.specs.declared.pen.Ending.TheVariants.{Done};
ghost use Rattle.filing.specs.Pen.{last_line};
ghost use Rattle.sites.specs.Site.{site_of};
ghost use Rattle.filing.specs.Written.{overwritten};
ghost use Rattle.survey.specs.Surveying.{SiteFirst, Filed};

use crate::fault::Fault;
use crate::trip::set_out;
use filing::pen::{Pen, Unclosed};
use floor::Metric;
use floor::kings::Kings;
use floor::streets::Streets;
use measure::{Length, Measure, Sure};
use sites::site::{Site, read_site};
use std::alloc::Global;
use texts::heading::{LatticeKind, MeasureKind};

// Reads a site text, drives the site, and writes the record of the drive into the buffer: the number of its bytes.
pub fn survey(heap: Global, text: &[u8], buffer: &mut [u8]) -> Result<usize, Fault>
    ensures site { SiteFirst (site_of text.now) buffer.old buffer.new result }
    ensures within { IfOk result (λ bytes. bytes ≤ length buffer.old) }
{
    let site = read_site(text)?;
    let (width, height) = (site.heading.width, site.heading.height);
    // Here and below each kind is a type of its own, to which the drive is compiled.
    match site.heading.lattice()? {
        LatticeKind::Streets => by_measure(heap, Streets::new(width, height)?, &site, buffer),
        LatticeKind::Kings => by_measure(heap, Kings::new(width, height)?, &site, buffer),
    }
}

// Drives a site over a lattice, by the measure that its first line names, and files the course.
// Heap, lattice and site go along, since the lattice's type is chosen on the way.
fn by_measure<L: Metric + Copy>(
    heap: Global,
    lattice: L,
    site: &Site,
    buffer: &mut [u8],
) -> Result<usize, Fault>
    ensures { IfOk result (λ bytes. Filed site.now.heading buffer.old buffer.new bytes) }
{
    match site.heading.measured_by()? {
        MeasureKind::Length => file::<L, Length>(heap, lattice, site, buffer),
        MeasureKind::Sure => file::<L, Sure>(heap, lattice, site, buffer),
    }
}

// Drives a site over a lattice, by a measure, and files the course.
fn file<L: Metric + Copy, M: Measure + Clone>(
    heap: Global,
    lattice: L,
    site: &Site,
    buffer: &mut [u8],
) -> Result<usize, Fault>
    ensures { IfOk result (λ bytes. Filed site.now.heading buffer.old buffer.new bytes) }
{
    let mut trip = set_out::<L, M>(heap, lattice, site)?;
    let mut pen = Pen::begin(&site.heading, buffer)?;
    // By hand, since `?` would let an open pen go.
    match trip.follow(&mut pen, buffer) {
        Ok(()) => close(pen, buffer, trip.rock_found()),
        Err(fault) => {
            pen.abandon();
            Err(fault)
        }
    }
}

// Closes the record of a drive that arrived.
fn close(pen: Pen, buffer: &mut [u8], rock: u32) -> Result<usize, Fault>
    ensures { IfOk result (λ bytes. (bytes ≡ pen.at + 35) × (bytes ≤ length buffer.old) × (buffer.new ≡ overwritten buffer.old pen.at (last_line Done pen rock))) }
{
    Ok(pen.done(buffer, rock).map_err(Unclosed::give_up)?)
}
