// A record, behind its four bytes of size: second/FORMAT.md says what its numbers mean.
ghost use Rattle.std.specs.Prelude.{◌<◌, ◌^◌, IfOk};

use crate::stop::Stop;
use plumtassel::{Code, FrontEnd};
use std::num::f32_from_bits_with_nan;

// Fifteen numbers of four bytes, before the payload.
pub const FIELDS: usize = 60;

#[derive(Clone, Copy, Debug, PartialEq, Eq)]
pub enum Kind {
    Encode = 1,
    Decode = 2,
    DecodeSheet = 3,
    Check = 4,
    Front = 5,
}

impl TryFrom<u32> for Kind {
    type Error = Stop;

    fn try_from(number: u32) -> Result<Kind, Stop> {
        match number {
            1 => Ok(Kind::Encode),
            2 => Ok(Kind::Decode),
            3 => Ok(Kind::DecodeSheet),
            4 => Ok(Kind::Check),
            5 => Ok(Kind::Front),
            _ => Err(Stop::Bounds),
        }
    }
}

#[derive(Clone, Copy)]
pub struct Record<'a> {
    pub kind: Kind,
    pub code: Code,
    pub length: usize,
    pub room: usize,
    pub allowance: u32,
    pub words: usize,
    pub output: usize,
    pub sheet: usize,
    pub sheet_count: usize,
    pub payload: &'a [u8],
    // What stands behind the payload: the sheet of kind 4.
    pub behind: &'a [u8],
}

impl<'a> TryFrom<&'a [u8]> for Record<'a> {
    type Error = Stop;

    fn try_from(bytes: &'a [u8]) -> Result<Record<'a>, Stop> {
        let mut fields = Fields(bytes);
        let kind = Kind::try_from(fields.number()?)?;
        let code = fields.code()?;
        let length = fields.size()?;
        let room = fields.size()?;
        let allowance = fields.number()?;
        let words = fields.size()?;
        let output = fields.size()?;
        let sheet = fields.size()?;
        let count = fields.size()?;
        let sheet_count = fields.size()?;
        let width = if kind == Kind::Front { 4 } else { 1 };
        let (payload, behind) = fields
            .0
            .split_at_checked(width * count)
            .ok_or(Stop::Bounds)?;
        Ok(Record {
            kind,
            code,
            length,
            room,
            allowance,
            words,
            output,
            sheet,
            sheet_count,
            payload,
            behind,
        })
    }
}

// What is not read yet of a record's bytes.
#[derive(Drop)]
struct Fields<'a>(&'a [u8]);

impl Fields<'_> {
    fn number(&mut self) -> Result<u32, Stop> {
        let (number, rest) = self.0.split_first_chunk().ok_or(Stop::Short)?;
        self.0 = rest;
        Ok(u32::from_le_bytes(*number))
    }

    // A number as a length or a count.
    fn size(&mut self) -> Result<usize, Stop>
        ensures { IfOk result (λ n. n < 2 ^ 32) }
    {
        Ok(self.number()? as usize)
    }

    fn code(&mut self) -> Result<Code, Stop> {
        Ok(Code {
            outputs: self.number()?,
            memory: self.number()?,
            generators: [
                self.number()?,
                self.number()?,
                self.number()?,
                self.number()?,
            ],
        })
    }
}

impl Record<'_> {
    // A front end stands where a code stands.
    pub fn front_end(&self) -> FrontEnd {
        let [gain, threshold, ..] = self.code.generators;
        FrontEnd {
            form: self.code.outputs,
            offset: f32_from_bits_with_nan(self.code.memory),
            gain: f32_from_bits_with_nan(gain),
            threshold: f32_from_bits_with_nan(threshold),
        }
    }
}
