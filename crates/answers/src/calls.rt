// A record's call, with the buffers that it asks for, and its answer line. Output buffers are filled before, so that a stray byte shows
// in their checksum. second/FORMAT.md bounds what stands here: a record that asks for more stops the program.
use crate::lines::{FrontLine, Line, checksum};
use crate::record::{Kind, Record};
use crate::stop::Stop;
use fields::symbols;
use plumtassel::{
    plumtassel_check, plumtassel_decode, plumtassel_decode_sheet, plumtassel_encode,
    plumtassel_front,
};
use std::num::f32_from_bits_with_nan;

const UNTOUCHED: u8 = 0xA5;

const SYMBOLS: usize = 1024;

const MESSAGE: usize = 256;

const WORDS: usize = 8192;

const SHEET: usize = 32768;

pub fn answer(rt: &impl Print, record: &Record) -> Result<(), Stop> {
    match record.kind {
        Kind::Encode => println!(rt; "{}", encode(record)?)?,
        Kind::Decode => println!(rt; "{}", decode(record)?)?,
        Kind::DecodeSheet => {
            let (line, sheet) = decode_sheet(record)?;
            println!(rt; "{line} {sheet}")?
        }
        Kind::Check => println!(rt; "{}", check(record)?)?,
        Kind::Front => println!(rt; "{}", front(record)?)?,
    }
    Ok(())
}

// The part of a buffer that a record asks for.
fn part<T>(buffer: &mut [T], length: usize) -> Result<&mut [T], Stop> {
    buffer.get_mut(..length).ok_or(Stop::Bounds)
}

// The symbols that a record holds.
fn received_by<'a>(record: &Record, room: &'a mut [i8]) -> Result<&'a [i8], Stop> {
    let received = symbols(record.payload, room);
    if received.len() < record.payload.len() {
        return Err(Stop::Bounds);
    }
    Ok(received)
}

fn encode(record: &Record) -> Result<Line, Stop> {
    let mut out = [UNTOUCHED; SYMBOLS];
    let out = part(&mut out, record.output)?;
    let told = plumtassel_encode(record.code, record.payload, out);
    Ok(Line::new(record.kind, told, out))
}

fn decode(record: &Record) -> Result<Line, Stop> {
    let mut received = [0; SYMBOLS];
    let received = received_by(record, &mut received)?;
    let mut work = [0; WORDS];
    let mut message = [UNTOUCHED; MESSAGE];
    let message = part(&mut message, record.output)?;
    let told = plumtassel_decode(
        record.code,
        record.length,
        received,
        record.room,
        record.allowance,
        part(&mut work, record.words)?,
        message,
    );
    Ok(Line::new(record.kind, told, message))
}

// The line, and the checksum of the sheet's buffer.
fn decode_sheet(record: &Record) -> Result<(Line, u32), Stop> {
    let mut received = [0; SYMBOLS];
    let received = received_by(record, &mut received)?;
    let mut work = [0; WORDS];
    let mut message = [UNTOUCHED; MESSAGE];
    let message = part(&mut message, record.output)?;
    let mut sheet = [UNTOUCHED; SHEET];
    let sheet = part(&mut sheet, record.sheet)?;
    let told = plumtassel_decode_sheet(
        record.code,
        record.length,
        received,
        record.room,
        record.allowance,
        part(&mut work, record.words)?,
        message,
        sheet,
    );
    let line = Line::new(record.kind, told, message);
    Ok((line, checksum(sheet.iter().copied())))
}

fn check(record: &Record) -> Result<Line, Stop> {
    if record.behind.len() != record.sheet_count {
        return Err(Stop::Bounds);
    }
    let mut received = [0; SYMBOLS];
    let received = received_by(record, &mut received)?;
    let mut message = [UNTOUCHED; MESSAGE];
    let message = part(&mut message, record.output)?;
    let told = plumtassel_check(record.code, record.length, received, record.behind, message);
    Ok(Line::new(record.kind, told, message))
}

fn front(record: &Record) -> Result<FrontLine, Stop> {
    let mut readings = [0.0; SYMBOLS];
    let readings = part(&mut readings, record.payload.len() / 4)?;
    for (reading, bytes) in readings.iter_mut().zip(record.payload.as_chunks().0) {
        *reading = f32_from_bits_with_nan(u32::from_le_bytes(*bytes));
    }
    let mut out = [UNTOUCHED.cast_signed(); SYMBOLS];
    let out = part(&mut out, record.output)?;
    let told = plumtassel_front(record.front_end(), readings, out);
    Ok(FrontLine::new(told, out))
}
