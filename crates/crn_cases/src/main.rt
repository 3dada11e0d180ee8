// Opens files, unpacks their levels, writes them as DDS files, and opens them in two calls, case by case from standard input, and writes a
// line for each call. docs/CASES.md has the format.
#![tactic(auto)]

ghost use Rattle.std.specs.Prelude.{◌≤◌, IfOk, length};

use crn_edits::edited;
use crn_format::{Fault, Header, Part, Record, Refusal, Table, Tables};
use crn_formats::{CodeTables, Counts};
use crunch::Written;
use std::io::{self, ErrorKind, Read};

// Bytes of a file, at most.
const MOST_FILE: usize = 262144;

// Bytes of a head.
const MOST_HEAD: usize = 4096;

// Bytes of a destination.
const MOST_DESTINATION: usize = 1048576;

// Words of a lent palette, but for the alpha selectors'.
const MOST_WORDS: usize = 8192;

// Words of the lent alpha selectors.
const MOST_ALPHA_SELECTORS: usize = 24576;

// ---- what ends the run early

// Why the cases end before they are all done. What fails is told on standard error, the rest by a line.
#[derive(Drop)]
enum Stop {
    NoCases,
    ShortInput,
    TooLarge,
    Failed(io::Error),
}

impl From<io::Error> for Stop {
    fn from(error: io::Error) -> Stop {
        Stop::Failed(error)
    }
}

// ---- input

// The next bytes, as many as the buffer has.
fn take_into(rt: &impl Input, buffer: &mut [u8]) -> Result<(), Stop> {
    match rt.reader().read_exact(buffer) {
        Ok(()) => Ok(()),
        Err(error) if error.kind() == ErrorKind::UnexpectedEof => Err(Stop::ShortInput),
        Err(error) => Err(Stop::Failed(error)),
    }
}

// The next N bytes.
fn take<const N: usize>(rt: &impl Input) -> Result<[u8; N], Stop> {
    let mut bytes = [0; N];
    take_into(rt, &mut bytes)?;
    Ok(bytes)
}

fn take_byte(rt: &impl Input) -> Result<u8, Stop> {
    let [byte] = take::<1>(rt)?;
    Ok(byte)
}

// The next number of four bytes, the lowest first.
fn take_u32(rt: &impl Input) -> Result<u32, Stop> {
    Ok(u32::from_le_bytes(take(rt)?))
}

// A length that there has to be room for.
fn take_length(rt: &impl Input, most: usize) -> Result<usize, Stop>
    ensures { IfOk result (λ length. length ≤ most) }
{
    let length = take_u32(rt)? as usize;
    if most < length {
        return Err(Stop::TooLarge);
    }
    Ok(length)
}

// A length, and so many bytes for the start of the buffer; how many they are.
fn take_sized(rt: &impl Input, buffer: &mut [u8]) -> Result<usize, Stop>
    ensures { IfOk result (λ taken. taken ≤ length buffer.old) }
{
    let length = take_length(rt, buffer.len())?;
    take_into(rt, &mut buffer[..length])?;
    Ok(length)
}

// A record after its edits.
fn take_edits(rt: &impl Input, mut record: Record) -> Result<Record, Stop> {
    for _ in 0..take_byte(rt)? {
        let field = take_byte(rt)?;
        let index = take_u32(rt)?;
        let value = take_u32(rt)?;
        record = edited(record, u32::from(field), index as usize, value);
    }
    Ok(record)
}

// ---- palettes

// How many words of each palette are lent, and the byte that each of them is at first.
#[derive(Clone, Copy)]
struct Lent {
    color_endpoints: usize,
    color_selectors: usize,
    alpha_endpoints: usize,
    alpha_selectors: usize,
    fill: u8,
    ghost fits: { (color_endpoints ≤ 8192) × (color_selectors ≤ 8192) × (alpha_endpoints ≤ 8192) × (alpha_selectors ≤ 24576) },
}

// The lengths are judged once all of them are there.
fn take_lent(rt: &impl Input) -> Result<Lent, Stop> {
    let color_endpoints = take_u32(rt)? as usize;
    let color_selectors = take_u32(rt)? as usize;
    let alpha_endpoints = take_u32(rt)? as usize;
    let alpha_selectors = take_u32(rt)? as usize;
    let fill = take_byte(rt)?;
    if MOST_WORDS < color_endpoints
        || MOST_WORDS < color_selectors
        || MOST_WORDS < alpha_endpoints
        || MOST_ALPHA_SELECTORS < alpha_selectors
    {
        return Err(Stop::TooLarge);
    }
    Ok(Lent {
        color_endpoints,
        color_selectors,
        alpha_endpoints,
        alpha_selectors,
        fill,
    })
}

// The four palettes of a file, each as long as it is lent.
#[derive(Drop)]
struct Palettes<'a> {
    color_endpoints: &'a mut [u32],
    color_selectors: &'a mut [u32],
    alpha_endpoints: &'a mut [u16],
    alpha_selectors: &'a mut [u16],
}

impl Palettes<'_> {
    // Each word set to this byte.
    fn fill(&mut self, byte: u8) {
        self.color_endpoints.fill(u32::from(byte));
        self.color_selectors.fill(u32::from(byte));
        self.alpha_endpoints.fill(u16::from(byte));
        self.alpha_selectors.fill(u16::from(byte));
    }

    fn slices(&self) -> crn_formats::Palettes<'_> {
        crn_formats::Palettes {
            color_endpoints: self.color_endpoints,
            color_selectors: self.color_selectors,
            alpha_endpoints: self.alpha_endpoints,
            alpha_selectors: self.alpha_selectors,
        }
    }
}

// ---- hashes

// What has an FNV-1a hash: a number by its bytes, the lowest first, and a record by its numbers in their order.
trait Hashed {
    // The hash `hash` with this more.
    fn hashed(&self, hash: u64) -> u64;
}

// The hash `hash` with all of these more.
fn hashed_all<T: Hashed>(items: &[T], hash: u64) -> u64 {
    let mut after = hash;
    for item in items {
        after = item.hashed(after);
    }
    after
}

// The hash of this alone.
fn hash_of(value: &impl Hashed) -> u64 {
    value.hashed(fnv::OFFSET)
}

impl Hashed for u8 {
    fn hashed(&self, hash: u64) -> u64 {
        fnv::step(hash, u32::from(*self))
    }
}

impl Hashed for u16 {
    fn hashed(&self, hash: u64) -> u64 {
        hashed_all(&self.to_le_bytes(), hash)
    }
}

impl Hashed for u32 {
    fn hashed(&self, hash: u64) -> u64 {
        hashed_all(&self.to_le_bytes(), hash)
    }
}

impl Hashed for Palettes<'_> {
    fn hashed(&self, hash: u64) -> u64 {
        let mut after = hashed_all(self.color_endpoints, hash);
        after = hashed_all(self.color_selectors, after);
        after = hashed_all(self.alpha_endpoints, after);
        hashed_all(self.alpha_selectors, after)
    }
}

impl Hashed for Part {
    fn hashed(&self, hash: u64) -> u64 {
        hashed_all(&[self.offset, self.size, self.count], hash)
    }
}

impl Hashed for Header {
    fn hashed(&self, hash: u64) -> u64 {
        let numbers = [
            self.header_size,
            self.header_crc16,
            self.data_size,
            self.data_crc16,
            self.width,
            self.height,
            self.levels,
            self.faces,
            self.format,
            self.flags,
            self.reserved,
            self.userdata0,
            self.userdata1,
        ];
        let palettes = [
            self.color_endpoints,
            self.color_selectors,
            self.alpha_endpoints,
            self.alpha_selectors,
        ];
        let mut after = hashed_all(&numbers, hash);
        after = hashed_all(&palettes, after);
        after = hashed_all(&[self.tables_size, self.tables_offset], after);
        hashed_all(&self.level_offsets, after)
    }
}

impl Hashed for Table {
    fn hashed(&self, hash: u64) -> u64 {
        hashed_all(&self.lengths, self.count.hashed(hash))
    }
}

impl Hashed for Record {
    fn hashed(&self, hash: u64) -> u64 {
        let mut after = self.header.hashed(hash);
        after = self.tables.chunk_encoding.hashed(after);
        after = self.tables.color_endpoint_delta.hashed(after);
        after = self.tables.color_selector_delta.hashed(after);
        after = self.tables.alpha_endpoint_delta.hashed(after);
        self.tables.alpha_selector_delta.hashed(after)
    }
}

// ---- the calls

// A case: its file, and what is lent for it.
#[derive(Clone, Copy)]
struct Case<'a> {
    file: &'a [u8],
    lent: Lent,
}

// A level call as the input has it, but for its destination.
#[derive(Clone, Copy)]
struct LevelCall {
    level: u32,
    pitch: usize,
    distance: usize,
    budget: u64,
}

fn take_level_call(rt: &impl Input) -> Result<LevelCall, Stop> {
    Ok(LevelCall {
        level: take_u32(rt)?,
        pitch: usize::from_le_bytes(take(rt)?),
        distance: usize::from_le_bytes(take(rt)?),
        budget: u64::from_le_bytes(take(rt)?),
    })
}

// The record of no file, in whose place a refusal stands.
fn empty_record() -> Record {
    let none = Table {
        count: 0,
        lengths: [0; 8192],
    };
    Record {
        header: Header::default(),
        tables: Tables {
            chunk_encoding: none,
            color_endpoint_delta: none,
            color_selector_delta: none,
            alpha_endpoint_delta: none,
            alpha_selector_delta: none,
        },
    }
}

// An answer by its number: 0 with what it has, or the refusal's with what stands in its place.
fn by_number<T: Drop>(answer: Result<T, Refusal>, refused: T) -> (u32, T) {
    match answer {
        Ok(value) => (0, value),
        Err(refusal) => (refusal.into(), refused),
    }
}

// What opening or loading answered, what the palettes hold, and the record, the empty one where it was refused.
fn say_opened(
    rt: &impl Print,
    call: &str,
    opened: Result<Record, Fault>,
    palettes: &Palettes,
) -> io::Result<Record> {
    let (refusal, file) = match opened {
        Ok(file) => (0, file),
        Err(fault) => (fault.refusal.into(), empty_record()),
    };
    println!(rt;
        "{call} {refusal} {:016x} {:016x}",
        hash_of(palettes),
        hash_of(&file)
    )?;
    Ok(file)
}

impl Case<'_> {
    // The file opened in one call, the palettes filled first; the record, the empty one where it is refused.
    fn open(&self, rt: &impl Print, palettes: &mut Palettes) -> io::Result<Record> {
        palettes.fill(self.lent.fill);
        let opened = crunch::open(
            self.file,
            palettes.color_endpoints,
            palettes.color_selectors,
            palettes.alpha_endpoints,
            palettes.alpha_selectors,
        );
        say_opened(rt, "open", opened, palettes)
    }

    // The next level call: what it answers, what is left of the budget, and what the destination holds. Every destination is the start of
    // one space, filled first.
    fn unpack_level(
        &self,
        rt: &(impl Input + Print),
        file: &Record,
        palettes: &Palettes,
        space: &mut [u8],
    ) -> Result<(), Stop> {
        let call = take_level_call(rt)?;
        let size = take_length(rt, space.len())?;
        let destination = &mut space[..size];
        destination.fill(self.lent.fill);
        let mut left = call.budget;
        let unpacked = crunch::unpack_level(
            *file,
            self.file,
            &palettes.slices(),
            call.level,
            call.pitch,
            call.distance,
            &mut left,
            destination,
        );
        let (refusal, symbols, cutouts) = match unpacked {
            Ok(blocks) => (0, blocks.symbols, blocks.cutouts),
            Err(refused) => (refused.refusal.into(), refused.symbols, 0),
        };
        let hash = hashed_all(destination, fnv::OFFSET);
        println!(rt; "level {refusal} {symbols} {cutouts} {left} {hash:016x}")?;
        Ok(())
    }

    // The next DDS call: how the writing ended, what the destination holds, and what had to be lent.
    fn write_dds(
        &self,
        rt: &(impl Input + Print),
        file: &Record,
        palettes: &Palettes,
        space: &mut [u8],
    ) -> Result<(), Stop> {
        let size = take_length(rt, space.len())?;
        let destination = &mut space[..size];
        destination.fill(self.lent.fill);
        let tables = &file.tables;
        let lent = CodeTables {
            counts: Counts {
                chunk: tables.chunk_encoding.count,
                color_ends: tables.color_endpoint_delta.count,
                color_sels: tables.color_selector_delta.count,
                alpha_ends: tables.alpha_endpoint_delta.count,
                alpha_sels: tables.alpha_selector_delta.count,
            },
            chunk: &tables.chunk_encoding.lengths,
            color_ends: &tables.color_endpoint_delta.lengths,
            color_sels: &tables.color_selector_delta.lengths,
            alpha_ends: &tables.alpha_endpoint_delta.lengths,
            alpha_sels: &tables.alpha_selector_delta.lengths,
        };
        let Written {
            refusal,
            level,
            at,
            bytes,
            symbols,
            cutouts,
        } = crunch::write_dds(
            file.header,
            &lent,
            self.file,
            &palettes.slices(),
            destination,
        );
        let hash = hashed_all(destination, fnv::OFFSET);
        let (due, needed) = by_number(crunch::dds_bytes(file.header), 0);
        println!(rt;
            "dds {refusal} {level} {at} {bytes} {symbols} {cutouts} {hash:016x} {due} {needed}"
        )?;
        Ok(())
    }

    // The next load call: a look, then the case's file loaded with the header that the look gave and the edits of it, the palettes filled
    // first. The edits are a record's; its tables have no part in the load.
    fn load(
        &self,
        rt: &(impl Input + Print),
        file: &Record,
        palettes: &mut Palettes,
    ) -> Result<(), Stop> {
        let mut head = [0; MOST_HEAD];
        let size = take_sized(rt, &mut head)?;
        let length = take_u32(rt)? as usize;
        let (refusal, header) = by_number(
            crunch::look_at(&head[..size], length),
            Header::default(),
        );
        println!(rt; "look {refusal} {:016x}", hash_of(&header))?;
        let edited = take_edits(
            rt,
            Record {
                header,
                tables: file.tables,
            },
        )?;
        palettes.fill(self.lent.fill);
        let loaded = crunch::load(
            edited.header,
            self.file,
            palettes.color_endpoints,
            palettes.color_selectors,
            palettes.alpha_endpoints,
            palettes.alpha_selectors,
        );
        say_opened(rt, "load", loaded, palettes)?;
        Ok(())
    }

    // The file opened, and then the calls of each kind, as many as the next byte says: those of levels and of DDS files with the edited
    // record.
    fn run(&self, rt: &(impl Input + Print), space: &mut [u8]) -> Result<(), Stop> {
        let mut color_endpoints = [0; MOST_WORDS];
        let mut color_selectors = [0; MOST_WORDS];
        let mut alpha_endpoints = [0; MOST_WORDS];
        let mut alpha_selectors = [0; MOST_ALPHA_SELECTORS];
        let mut palettes = Palettes {
            color_endpoints: &mut color_endpoints[..self.lent.color_endpoints],
            color_selectors: &mut color_selectors[..self.lent.color_selectors],
            alpha_endpoints: &mut alpha_endpoints[..self.lent.alpha_endpoints],
            alpha_selectors: &mut alpha_selectors[..self.lent.alpha_selectors],
        };
        let opened = self.open(rt, &mut palettes)?;
        let edited = take_edits(rt, opened)?;
        for _ in 0..take_byte(rt)? {
            self.unpack_level(rt, &edited, &palettes, space)?;
        }
        for _ in 0..take_byte(rt)? {
            self.write_dds(rt, &edited, &palettes, space)?;
        }
        for _ in 0..take_byte(rt)? {
            self.load(rt, &opened, &mut palettes)?;
        }
        Ok(())
    }
}

// ---- cases

// The cases in turn, behind the sign and their number.
fn cases(rt: &(impl Input + Print)) -> Result<(), Stop> {
    let sign: [u8; 4] = take(rt)?;
    let count = take_u32(rt)?;
    if sign != *b"CASE" {
        return Err(Stop::NoCases);
    }
    let mut bytes = [0; MOST_FILE];
    let mut space = [0; MOST_DESTINATION];
    for _ in 0..count {
        let size = take_sized(rt, &mut bytes)?;
        let lent = take_lent(rt)?;
        let file = &bytes[..size];
        Case { file, lent }.run(rt, &mut space)?;
    }
    Ok(())
}

fn main(rt: HostRuntime) -> io::Result<()> {
    match cases(&rt) {
        Ok(()) => Ok(()),
        Err(Stop::NoCases) => println!(rt; "no cases"),
        Err(Stop::ShortInput) => println!(rt; "short input"),
        Err(Stop::TooLarge) => println!(rt; "too large"),
        Err(Stop::Failed(error)) => Err(error),
    }
}
