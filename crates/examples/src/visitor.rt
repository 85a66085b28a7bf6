//! A handler that makes each call of its session, and keeps what it is answered.

ghost use Rattle.std.specs.Prelude.{◌≡◌, ◌≤◌, vec_len, IfOk};

use crate::reader::lines_of;
use anyhow::{Result, bail};
use disk_fakes::MemDisk;
use embedded_run::{FlushRefusal, Handler, Outcome, ScanReply, Scanner, Session, run_handlers};
use kv_cell::{Batch, Cell, Durability, Kind, NoMemory};
use std::alloc::Global;
use std::sync::Wait;
use std::thread::Threads;

/// A visitor, and what it was answered. None is a refusal.
#[derive(Drop)]
pub struct Visitor {
    alloc: Global,
    /// The sequence ids of its puts.
    first: Option<u64>,
    second: Option<u64>,
    point: u64,
    /// What a get of one row saw, and a scan of all rows in pages.
    got: Option<Vec<String>>,
    pages: Option<Vec<String>>,
    /// What its flushes did: of one family, of the other one, and of all.
    info: Option<Flushed>,
    pets: Option<Flushed>,
    all: Option<Flushed>,
    /// How many entries the log had that was closed.
    rolled: Option<u64>,
}

/// What a flush did: all up to a sequence id is flushed now, or was so before.
#[derive(Clone, Copy)]
enum Flushed {
    UpTo(u64),
    Nothing(u64),
}

/// A cell: its row, family, qualifier and value.
type Text = (&'static [u8], &'static [u8], &'static [u8], &'static [u8]);

const FIRST: [Text; 3] = [
    (b"user1", b"info", b"name", b"Ann"),
    (b"user1", b"pets", b"cat", b"Tom"),
    (b"user2", b"info", b"name", b"Bob"),
];

const SECOND: [Text; 1] = [(b"user1", b"info", b"name", b"Anna")];

/// A batch of these cells.
fn batch_of(alloc: Global, texts: &[Text]) -> Result<Batch> {
    let mut cells = Vec::new(alloc);
    for (row, family, qualifier, value) in texts {
        cells.push(Cell::new(alloc, row, family, qualifier, 1000, Kind::Put.code(), value)?)?;
    }
    Ok(Batch::new(cells)?)
}

/// Both batches.
fn both_of(alloc: Global) -> Result<(Batch, Batch)> {
    Ok((batch_of(alloc, &FIRST)?, batch_of(alloc, &SECOND)?))
}

/// Puts both batches into region 1.
fn put_both<S: Session>(at: &mut S, batches: (Batch, Batch)) -> (Option<u64>, Option<u64>)
    requires of { S.is_open at.old }
    requires regions { 1 ≤ S.name.regions }
    requires calls { (S.knows at.old).calls ≡ 0 }
    ensures calls { (S.knows at.new).calls ≡ 2 }
    ensures of { S.is_open at.new }
    ensures same { S.setting at.new ≡ S.setting at.old }
{
    let first = at.put(1, Durability::Sync, batches.0);
    let second = at.put(1, Durability::Sync, batches.1);
    (first.ok(), second.ok())
}

/// What a flush was answered.
fn answer_of(flushed: Result<u64, FlushRefusal>) -> Option<Flushed> {
    match flushed {
        Ok(number) => Some(Flushed::UpTo(number)),
        Err(FlushRefusal::Nothing { flushed }) => Some(Flushed::Nothing(flushed)),
        Err(_) => None,
    }
}

/// Flushes one family of region 1, then the other one, then all.
fn flush_each<S: Session>(at: &mut S) -> (Option<Flushed>, Option<Flushed>, Option<Flushed>)
    requires of { S.is_open at.old }
    requires regions { 1 ≤ S.name.regions }
    requires calls { (S.knows at.old).calls ≤ 2 }
    ensures of { S.is_open at.new }
    ensures same { S.setting at.new ≡ S.setting at.old }
{
    let info = at.flush(1, Some(b"info"));
    let pets = at.flush(1, Some(b"pets"));
    let all = at.flush(1, None);
    (answer_of(info), answer_of(pets), answer_of(all))
}

/// The cells of a get.
fn cells_of(alloc: Global, reply: Result<ScanReply, NoMemory>) -> Option<Vec<String>> {
    let reply = reply.ok()?;
    lines_of(alloc, &reply).ok()
}

/// Adds a line for each page of two cells, up to one after the last of four cells.
fn add_pages(alloc: Global, scanner: &mut Scanner, lines: &mut Vec<String>) -> Result<()> {
    for _ in 0..3 {
        let page = scanner.next(alloc, 2)?;
        let count = page.cells.as_slice().len();
        let done = page.done;
        lines.push(format!(in alloc; "a page of {count}, the last one: {done}")?)?;
    }
    Ok(())
}

/// The pages of a scan.
fn pages_of(alloc: Global, begun: Result<Scanner, NoMemory>) -> Option<Vec<String>> {
    let mut scanner = begun.ok()?;
    let mut lines = Vec::new(alloc);
    add_pages(alloc, &mut scanner, &mut lines).ok()?;
    Some(lines)
}

impl Handler for Visitor {
    // It promises nothing of itself.
    ghost did = { λ _ _ _ _ _ _. Unit {0} };

    fn work<S: Session>(&mut self, at: &mut S) {
        let alloc = self.alloc;
        let Ok(batches) = both_of(alloc) else {
            return;
        };
        let (first, second) = put_both(at, batches);
        self.point = at.read_point(1);
        self.got = cells_of(alloc, at.get(1, b"user1", 1));
        self.pages = pages_of(alloc, at.begin_scan(1, b"", b""));
        let (info, pets, all) = flush_each(at);
        self.rolled = at.roll().ok().map(|rolled| rolled.entries);
        self.first = first;
        self.second = second;
        self.info = info;
        self.pets = pets;
        self.all = all;
    }
}

/// Prints these lines, or that there are none.
fn print_lines<R: Print>(rt: &R, lines: &Option<Vec<String>>) -> Result<()> {
    match lines {
        Some(lines) => {
            for line in lines {
                println!(rt; "{line}")?;
            }
        }
        None => println!(rt; "refused")?,
    }
    Ok(())
}

/// Prints a number, or that there is none.
fn print_number<R: Print>(rt: &R, what: &str, number: Option<u64>) -> Result<()> {
    match number {
        Some(number) => println!(rt; "{what} {number}")?,
        None => println!(rt; "{what} refused")?,
    }
    Ok(())
}

/// Prints what a flush did.
fn print_flush<R: Print>(rt: &R, flushed: Option<Flushed>) -> Result<()> {
    match flushed {
        Some(Flushed::UpTo(number)) => println!(rt; "flushed up to {number}")?,
        Some(Flushed::Nothing(number)) => println!(rt; "nothing to flush above {number}")?,
        None => println!(rt; "flush refused")?,
    }
    Ok(())
}

impl Visitor {
    fn new(alloc: Global) -> Visitor {
        Visitor {
            alloc,
            first: None,
            second: None,
            point: 0,
            got: None,
            pages: None,
            info: None,
            pets: None,
            all: None,
            rolled: None,
        }
    }

    /// Prints what it was answered.
    fn print<R: Print>(&self, rt: &R) -> Result<()> {
        print_number(rt, "put", self.first)?;
        print_number(rt, "put", self.second)?;
        print_number(rt, "point", Some(self.point))?;
        print_lines(rt, &self.got)?;
        print_lines(rt, &self.pages)?;
        print_flush(rt, self.info)?;
        print_flush(rt, self.pets)?;
        print_flush(rt, self.all)?;
        print_number(rt, "entries of the closed log:", self.rolled)
    }
}

/// One visitor.
fn one_visitor(alloc: Global) -> Result<Vec<Visitor>>
    ensures { IfOk result (λ visitors. vec_len visitors ≡ 1) }
{
    let mut visitors = Vec::new(alloc);
    visitors.push(Visitor::new(alloc))?;
    Ok(visitors)
}

/// Lets a visitor work on one region of an empty disk.
pub fn print_answers<R: Threads + Wait + Sync + Print + AllocGlobal>(rt: &R) -> Result<()> {
    let alloc = rt.alloc();
    let disk = MemDisk::new(alloc, &[])?;
    let visitors = one_visitor(alloc)?;
    let Outcome::Closed { handlers, .. } = run_handlers(rt, alloc, disk, 1000, 1, visitors) else {
        bail!("the store could not be opened or closed");
    };
    for visitor in handlers {
        visitor.print(rt)?;
    }
    Ok(())
}
