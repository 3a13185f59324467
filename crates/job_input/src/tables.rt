//! The tables of a job's listings, or the first fault of these.
ghost use Rattle.std.specs.Prelude.{◌≡◌, ℕ, ◌+◌, ◌≤◌, ◌<◌, None, option_map, ◌∷◌, length, drop, IfOk, IfErr, IfSome};
ghost use Rattle.module_area.specs.Images.{IsImage, AreImages};
ghost use Rattle.listing_reader.specs.Meaning.{listing_of};
ghost use Rattle.brk_table.specs.Build.{HasOwnPlaces};
ghost use Rattle.brk_table.specs.Together.{AreTables};
ghost use Rattle.report_text.specs.Conditions.{HasFewLines};
ghost use Rattle.job_input.specs.Meaning.{build_fault, job_fault, listing_fault, location_in, code_line_count, AreTablesFrom, IsTableOf};
ghost use Rattle.job_input.specs.Faults.{IsFaultOf};
ghost use Rattle.job_input.specs.Tables.{IsReadyJob};

use crate::table_faults::TablesFault;
use brk_table::{BuildFault, Table, Tables, build};
use cov_base::Name;
use listing_reader::{Line, ListFault, Listing, ListingLines, read_listing};
use module_area::Image;
use session_book::Job;
use std::alloc::Global;

/// Where the instruction of a mismatch stands in its module.
fn location_in(lines: &Listing, fault: &BuildFault) -> u32
    ensures { result ≡ location_in lines.now fault.now }
{
    let BuildFault::Mismatch { line, .. } = *fault else {
        return 0;
    };
    let at = (line as usize).saturating_sub(1);
    if at >= lines.len() {
        return 0;
    }
    match lines.line(at) {
        Line::Text => 0,
        Line::Code { loc, .. } => loc,
    }
}

/// Why the lines of a module's listing make no table over it.
fn build_fault(name: &Name, lines: &Listing, fault: BuildFault) -> TablesFault
    ensures { result ≡ build_fault name.now lines.now fault }
{
    if let BuildFault::NoMemory = fault {
        return TablesFault::NoMemory;
    }
    let location = location_in(lines, &fault);
    TablesFault::Build {
        module: *name,
        location,
        fault,
    }
}

/// The table of module m's listing, with room for so many places.
fn table_of(
    alloc: Global,
    m: u32,
    image: &Image,
    texts: &ListingLines,
    room: u32,
) -> Result<Table, TablesFault>
    requires image { IsImage image.now }
    requires lines { length texts.now ≤ 16777216 }
    ensures fault { IfErr result (IsFaultOf (listing_fault image.now room texts.now)) }
    ensures faultless { IfOk result (λ _. listing_fault image.now room texts.now ≡ None) }
    ensures table { IfOk result (λ t. IsTableOf m image.now texts.now t) }
    ensures own { IfOk result (λ t. HasOwnPlaces m image.now t) }
    ensures count { IfOk result (λ t. length t.places ≡ code_line_count (listing_of texts.now)) }
    ensures room { IfOk result (λ t. length t.places ≤ room) }
{
    let lines = match read_listing(alloc, texts) {
        Ok(lines) => lines,
        Err(ListFault::NoMemory) => return Err(TablesFault::NoMemory),
        Err(fault) => return Err(TablesFault::List {
            module: image.name,
            fault,
        }),
    };
    match build(alloc, m, &lines, image, room) {
        Ok(table) => Ok(table),
        Err(fault) => Err(build_fault(&image.name, &lines, fault)),
    }
}

/// The number of the job's modules.
fn module_count(job: &Job) -> u32
    ensures value { result ≡ length job.now.images }
    ensures listings { length job.now.listings ≡ result }
    ensures images { AreImages job.now.images }
{
    job.images.0.len() as u32
}

/// Module m of the job.
fn image_at(job: &Job, m: u32) -> &Image
    requires { m < length job.now.images }
    ensures value { drop m job.now.images ≡ result.now ∷ drop (m + 1) job.now.images }
    ensures image { IsImage result.now }
{
    &job.images.0[m as usize]
}

/// The listing of module m, where it has one.
fn listing_at(job: &Job, m: u32) -> Option<&ListingLines>
    requires exists { m < length job.now.images }
    requires few { HasFewLines job.now }
    ensures value { drop m job.now.listings ≡ option_map (λ texts. texts.now) result ∷ drop (m + 1) job.now.listings }
    ensures few { IfSome result (λ texts. length texts.now ≤ 16777216) }
{
    match &job.listings[m as usize] {
        Some(lines) => Some(lines),
        None => None,
    }
}

/// The tables of a job's listings in the order of its modules, or their first fault.
fn tables_in_order(alloc: Global, job: &Job) -> Result<Vec<Table>, TablesFault>
    requires { HasFewLines job.now }
    ensures fault { IfErr result (IsFaultOf (job_fault job.now)) }
    ensures faultless { IfOk result (λ _. job_fault job.now ≡ None) }
    ensures matching { IfOk result (λ tables. AreTablesFrom 0 job.now.images job.now.listings tables.items) }
    ensures images { IfOk result (λ _. AreImages job.now.images) }
    ensures tables { IfOk result (λ tables. AreTables job.now.images tables.items) }
{
    let mut tables = Vec::new(alloc);
    let mut room = 65_536;
    for m in 0..module_count(job) {
        if let Some(texts) = listing_at(job, m) {
            let table = table_of(alloc, m, image_at(job, m), texts, room)?;
            room -= table.places.len() as u32;
            tables.push(table)?;
        }
    }
    Ok(tables)
}

/// The tables of a job's listings, or the first fault of these, or want of memory.
pub fn tables_of(alloc: Global, job: &Job) -> Result<Tables, TablesFault>
    requires { HasFewLines job.now }
    ensures tables { IfOk result (IsReadyJob job.now) }
    ensures fault { IfErr result (IsFaultOf (job_fault job.now)) }
{
    let tables = tables_in_order(alloc, job)?;
    Ok(Tables::over(alloc, tables, &job.images)?)
}
