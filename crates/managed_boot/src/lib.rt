// The boot list: "a lent slice of resource records, added in order", on a table that is the image of a well-formed set. `walk` goes along the slice;
// `boot` takes a list that is lent as bytes, some records at a time, out into an array and lends that to `walk`.
#![tactic(auto)]

ghost use Rattle.std.specs.Prelude.{◌≡◌, ◌+◌, ◌*◌, ◌/◌, ◌≤◌, min, length, take, drop};
ghost use Rattle.facts.specs.Boot.{record_size, record_of, records_in};
ghost use Rattle.facts.specs.Table;
ghost use Rattle.layout.specs.Sound.{Accepted};
ghost use Rattle.facts.specs.Codes.{placed};
ghost use Rattle.managed_boot.specs.Booting.{AddsRecord, BootsRecords, Boots, at_once, place_of, code_of};

use facts::{Code, RangeAsked, Record};
use layout::MOST_LINES;
use managed_changes::Resource;

// "A record has a resource type and attributes of one byte, a base or level and a port count of four".
const RECORD_SIZE: usize = 10;

const ATTRIBUTES_AT: usize = 1;

const BASE_AT: usize = 2;

const COUNT_AT: usize = 6;

// The record that begins at a byte of the list.
fn record_at(records: &[u8], at: usize) -> Record
    requires { at + record_size ≤ length records.now }
    ensures { result ≡ record_of (drop at records.now) }
{
    Record {
        resource: records[at],
        attributes: records[at + ATTRIBUTES_AT],
        base: table_read::long(records, at + BASE_AT) as u32,
        count: table_read::long(records, at + COUNT_AT) as u32,
    }
}

// As many records are taken out of a list's bytes at a time: of 20 records 8, 8 and 4.
const AT_ONCE: usize = 8;

// How many are taken next, out of so many bytes.
fn next(left: usize) -> usize
    ensures { result ≡ min at_once (left / record_size) }
{
    AT_ONCE.min(left / RECORD_SIZE)
}

// The n records that begin at a byte of the list.
fn taken(records: &[u8], at: usize, n: usize) -> [Record; AT_ONCE]
    requires { (n ≤ at_once) × (at + n * record_size ≤ length records.now) }
    ensures { take n result ≡ records_in n (drop at records.now) }
{
    let none = Record {
        resource: 0,
        attributes: 0,
        base: 0,
        count: 0,
    };
    let mut all = [none; AT_ONCE];
    for i in 0..n {
        all[i] = record_at(records, at + i * RECORD_SIZE);
    }
    all
}

// One record is added, or refused: "it gets the code that Add's rules give those values".
#[tactic(auto, using(crate::proofs::Walking::type_stays))]
fn add(t: &mut [u8], r: Record) -> Result<(), Code>
    requires { Accepted t.old }
    ensures { AddsRecord r t.old t.new result }
{
    match Resource::try_from(r.resource) {
        Ok(Resource::Io) => managed_ranges::add(
            t,
            RangeAsked {
                base: r.base,
                count: r.count,
                attributes: r.attributes,
                lines: MOST_LINES as u8,
            },
        ),
        Ok(Resource::Irq) => managed_levels::add(t, r.base, r.attributes),
        Err(code) => Err(code),
    }
}

// Where a list stopped: the place of the first record that is refused, and the code.
#[derive(Clone, Copy, Debug, PartialEq, Eq)]
pub struct Stopped {
    pub place: usize,
    pub code: Code,
}

// A list that is lent as a slice of records: "it stops at the first refused, answers its place (from 0) and code, and earlier ones stay". The answer is the
// list's length, where all are added.
pub fn walk(t: &mut [u8], records: &[Record]) -> Result<usize, Stopped>
    requires { Accepted t.old }
    ensures { BootsRecords records.now t.old t.new result }
{
    for (place, record) in records.iter().enumerate() {
        if let Err(code) = add(t, *record) {
            return Err(Stopped { place, code });
        }
    }
    Ok(records.len())
}

// The n records that begin at a byte of the list are taken out, and lent as a slice.
fn lent(t: &mut [u8], records: &[u8], at: usize, n: usize) -> Result<usize, Stopped>
    requires { Accepted t.old × (n ≤ at_once) × (at + n * record_size ≤ length records.now) }
    ensures { BootsRecords (records_in n (drop at records.now)) t.old t.new result }
{
    let all = taken(records, at, n);
    walk(t, &all[..n])
}

// A list that is lent as bytes: "bytes too few for a record at the end are refused at its place". `first` is the place of the first record that is left.
pub fn boot(t: &mut [u8], records: &[u8]) -> Result<usize, Stopped>
    requires { Accepted t.old }
    ensures { Boots records.now t.old t.new result }
{
    let bytes = records.len();
    let mut first = 0;
    let mut at = 0;
    while RECORD_SIZE <= bytes - at {
        let n = next(bytes - at);
        if let Err(stopped) = lent(t, records, at, n) {
            return Err(Stopped {
                place: first + stopped.place,
                code: stopped.code,
            });
        }
        first += n;
        at += n * RECORD_SIZE;
    }
    if at < bytes {
        return Err(Stopped {
            place: first,
            code: Code::BadArgLength,
        });
    }
    Ok(first)
}

// code + 2^32 * place.
const ABOVE_CODE: u64 = 4294967296;

pub fn pack(booted: Result<usize, Stopped>) -> u64
    requires { place_of booted ≤ Table.all_levels + Table.most_ranges }
    ensures { result ≡ placed (code_of booted) (place_of booted) }
{
    match booted {
        Ok(place) => ABOVE_CODE * (place as u64),
        Err(stopped) => u64::from(u32::from(stopped.code)) + ABOVE_CODE * (stopped.place as u64),
    }
}
