//! Takes the record on standard input apart: a line for each field, `OFFSET LENGTH NAME VALUE`, or the refusal.
#![tactic(auto)]

use hexadecimal::writing::Hex;
use protocol::field::Field;
use record::reading::read_whole;
use record::view::Record;
use std::io::Read;
use std::{env, fmt, io};

/// How many bytes of a field are shown.
const SHOWN: usize = 32;

/// What is printed of a field: a number of the header in decimal, and any other field in hexadecimal.
#[derive(Clone, Copy)]
enum Value<'a> {
    Number(u16),
    Bytes(&'a [u8]),
}

impl Value<'_> {
    fn of<'a>(record: &Record<'a>, field: Field) -> Value<'a> {
        match record.header.number(field) {
            Some(number) => Value::Number(number),
            None => Value::Bytes(record.part(field).bytes),
        }
    }
}

impl fmt::Display for Value<'_> {
    fn fmt<W: fmt::Write>(&self, f: &mut fmt::Formatter<W>) -> fmt::Result {
        match *self {
            Value::Number(number) => write!(f, "{number}"),
            Value::Bytes(bytes) => match bytes.split_at_checked(SHOWN) {
                // what is not shown is two dots
                Some((shown, [_, ..])) => write!(f, "{}..", Hex(shown)),
                _ => write!(f, "{}", Hex(bytes)),
            },
        }
    }
}

/// A line for each field of a record.
fn describe(rt: &HostRuntime, record: Record) -> io::Result<()> {
    let header = record.header;
    for field in (0..header.field_count()).filter_map(|index| header.field(index)) {
        let part = record.part(field);
        let value = Value::of(&record, field);
        println!(rt; "{} {} {field} {value}", part.offset, part.bytes.len())?;
    }
    Ok(())
}

fn main(rt: HostRuntime) -> io::Result<()> {
    if env::args(&rt)?.count() > 1 {
        return println!(rt; "usage: describe < RECORD");
    }
    let mut input = Vec::new(rt.alloc());
    rt.stdin().read_to_end(&mut input)?;
    let bytes = input.as_slice();
    match read_whole(bytes) {
        Ok(whole) => describe(&rt, whole.view),
        Err(fault) => println!(rt; "{fault}"),
    }
}
