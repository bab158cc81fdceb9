//! Rows of standard input.

use crate::content::content;
use crate::members::{items_of, member, number_of, object_of, size_of, text_of};
use anyhow::{Result, bail};
use decimal_json::{Json, Members, parse};
use outside_io::FilesInMemory;
use std::alloc::Global;

/// A run of the program, and what it must give.
#[derive(Drop)]
pub struct TestRow {
    pub name: String,
    /// The words after the program's name.
    pub words: Vec<String>,
    pub files: FilesInMemory,
    /// Whether the test of images cannot change.
    pub has_fixed_images: bool,
    /// The writes that fail, and how many bytes each still takes.
    pub out_fails: Vec<(u64, usize)>,
    pub err_fails: Vec<(u64, usize)>,
    pub wanted: WantedRun,
}

/// What a run must give.
#[derive(Drop)]
pub struct WantedRun {
    pub out: Vec<u8>,
    pub err: Vec<u8>,
    pub status: u64,
}

pub fn read_row(alloc: Global, line: &str) -> Result<TestRow> {
    let Ok(json) = parse(alloc, line.as_bytes())? else {
        bail!("no JSON text");
    };
    let members = object_of(&json)?;
    Ok(TestRow {
        name: String::from_str(alloc, text_of(member(members, "name")?)?)?,
        words: words_of(alloc, member(members, "words")?)?,
        files: files_of(alloc, members)?,
        has_fixed_images: has_fixed_images(members)?,
        out_fails: failing_writes(alloc, members, "out")?,
        err_fails: failing_writes(alloc, members, "err")?,
        wanted: wanted_of(alloc, members)?,
    })
}

fn words_of(alloc: Global, json: &Json) -> Result<Vec<String>> {
    let mut words = Vec::new(alloc);
    for word in items_of(json)? {
        words.push(String::from_utf8(content(alloc, word)?)?)?;
    }
    Ok(words)
}

fn files_of(alloc: Global, row: &Members) -> Result<FilesInMemory> {
    let mut fails = Vec::new(alloc);
    if let Some(calls) = failing(row, "files")? {
        for call in items_of(calls)? {
            fails.push(number_of(call)?)?;
        }
    }
    let mut files = FilesInMemory::new(alloc, fails.as_slice())?;
    if let Some(contents) = row.get("files") {
        for file in object_of(contents)?.as_slice() {
            let bytes = content(alloc, &file.value)?;
            files.put(alloc, file.key.as_str(), bytes.as_slice())?;
        }
    }
    Ok(files)
}

fn has_fixed_images(row: &Members) -> Result<bool> {
    match row.get("images") {
        Some(images) => match text_of(images)? {
            "fixed" => Ok(true),
            _ => bail!("no test of images"),
        },
        None => Ok(false),
    }
}

fn failing_writes(alloc: Global, row: &Members, sink: &str) -> Result<Vec<(u64, usize)>> {
    let mut fails = Vec::new(alloc);
    if let Some(writes) = failing(row, sink)? {
        for write in items_of(writes)? {
            let [call, bytes] = items_of(write)? else {
                bail!("no failing write");
            };
            fails.push((number_of(call)?, size_of(bytes)?))?;
        }
    }
    Ok(fails)
}

/// The failing calls of files, out or err, where the row lists any.
fn failing<'a>(row: &'a Members, outside: &str) -> Result<Option<&'a Json>> {
    match row.get("fails") {
        Some(fails) => Ok(object_of(fails)?.get(outside)),
        None => Ok(None),
    }
}

fn wanted_of(alloc: Global, row: &Members) -> Result<WantedRun> {
    Ok(WantedRun {
        out: content(alloc, member(row, "out")?)?,
        err: content(alloc, member(row, "err")?)?,
        status: number_of(member(row, "status")?)?,
    })
}
