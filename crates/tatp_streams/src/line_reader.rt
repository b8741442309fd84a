//! The lines of a reader, taken one after another.
ghost use Rattle.std.specs.Prelude.{◌≡◌, ℕ, ◌+◌, ◌≤◌, ◌⊎◌, ◌==◌, true, false, List, [], drop, take, length, position, Option, IfSome, IfNone, IfOk, IfErr, OnOk, vec_len};
ghost use Rattle.tatp_streams.specs.declared.fault.StreamFault.TheVariants.{ReadFault, NoMemory};
ghost use Rattle.tatp_streams.specs.LineReading.{nothing_taken, HasNoLineFeed, IsFirstLine, HoldsNoLine, TakesLine, MeetsEnd, ReadsMore};

use crate::StreamFault;
use crate::input::{PIECE, read_piece};
use std::alloc::Global;
use std::io::Read;
use std::marker::Model;
use tatp_limits::MAX_INPUT_LIMIT;

/// The lines of a reader, taken one after another.
///
/// A line that was read whole is taken without reading, so the caller decides what is done before
/// the program waits for the next one. The reader holds no more than one piece of the input beside
/// its longest line.
#[derive(Drop)]
pub struct LineReader {
    /// The bytes that were read, without those that had been taken before the last read.
    buffer: Vec<u8>,
    /// The place in the buffer where the line begins that was taken last.
    start: usize,
    /// The place just after that line, without its line feed.
    end: usize,
    /// The place where the bytes begin that were not taken.
    taken: usize,
    /// How many bytes from that place on were searched and have no line feed.
    clear: usize,
    /// How many lines were taken.
    number: u64,
    /// How many bytes were read in all.
    count: usize,
    /// The most bytes that may be read in all.
    limit: usize,
    /// Whether the input has ended.
    ended: bool,
}

impl Model for LineReader {
    ghost use Rattle.std.specs.Prelude.{drop, slice_range};
    ghost use Rattle.tatp_streams.specs.LineReading.{LineReaderState, HoldsLines};

    ghost Value = { LineReaderState };

    ghost view = { λ a. record {
      line = slice_range a.buffer.items a.start a.end;
      number = a.number;
      ahead = drop a.taken a.buffer.items;
      count = a.count;
      limit = a.limit;
      ended = a.ended;
    } };

    ghost invariant = { λ a.
        HoldsLines a.buffer.items a.start a.end a.taken a.clear a.number a.count a.limit };
}

fn line_feed(bytes: &[u8]) -> Option<usize>
    ensures { result ≡ position (λ byte. byte == 10) bytes.now }
{
    bytes.iter().position(|byte| *byte == b'\n')
}

/// The length of the first line in bytes, without and with its line feed. The first `clear` bytes
/// have no line feed. The last line of an input that has ended may lack its own. `None` means that
/// no line is there whole.
fn first_line(bytes: &[u8], clear: usize, ended: bool) -> Option<(usize, usize)>
    requires within { clear ≤ length bytes.now }
    requires clear { HasNoLineFeed (take clear bytes.now) }
    ensures line { IfSome result (λ found. IsFirstLine bytes.now ended found.0 found.1) }
    ensures none { IfNone result (HasNoLineFeed bytes.now) }
    ensures last { IfNone result (ended ≡ true → bytes.now ≡ []) }
{
    match line_feed(&bytes[clear..]) {
        Some(at) => Some((clear + at, clear + at + 1)),
        None if ended && !bytes.is_empty() => Some((bytes.len(), bytes.len())),
        None => None,
    }
}

/// Removes the first `count` bytes; the others move to the front.
fn remove_front(buffer: &mut Vec<u8>, count: usize)
    requires { count ≤ vec_len buffer.old }
    ensures { buffer.new.items ≡ drop count buffer.old.items }
{
    // (a long line comes in many pieces, and isn't moved for each of them)
    if count > 0 {
        let len = buffer.len();
        buffer.as_mut_slice().copy_within(count..len, 0);
        buffer.truncate(len - count);
    }
}

impl LineReader {
    /// A reader of lines that has read nothing, and will read no more than `limit` bytes.
    pub fn new(alloc: Global, limit: usize) -> LineReader
        requires { limit ≤ MAX_INPUT_LIMIT }
        ensures { result ≡ nothing_taken limit }
    {
        LineReader {
            buffer: Vec::new(alloc),
            start: 0,
            end: 0,
            taken: 0,
            clear: 0,
            number: 0,
            count: 0,
            limit,
            ended: false,
        }
    }

    /// Takes the next line, if it was read whole. The last line needs no line feed once the input
    /// has ended. `false` means that no such line is there.
    pub fn advance_ready(&mut self) -> bool
        ensures line { result ≡ true
            → (known : Option (List ℕ)) → TakesLine self.old known self.new known }
        ensures none { result ≡ false → HoldsNoLine self.old }
        ensures same { result ≡ false → self.new ≡ self.old }
    {
        match first_line(&self.buffer[self.taken..], self.clear, self.ended) {
            Some((length, taken)) => {
                self.start = self.taken;
                self.end = self.taken + length;
                self.taken += taken;
                self.clear = 0;
                self.number += 1;
                true
            }
            None => {
                self.clear = self.buffer.len() - self.taken;
                false
            }
        }
    }

    /// Takes the next line, and reads until it is whole, which may wait. `Ok(false)` means that no
    /// line is left and that the input has ended. `Err` means that a read failed, that the input is
    /// longer than the limit, or that memory was refused; after it nothing is known of the lines
    /// that are left.
    pub fn advance<R: Read>(&mut self, reader: &mut R) -> Result<bool, StreamFault>
        ensures line { IfOk result (λ more. more ≡ true
            → TakesLine self.old (R.remaining reader.old) self.new (R.remaining reader.new)) }
        ensures end { IfOk result (λ more. more ≡ false
            → MeetsEnd self.old (R.remaining reader.old) self.new (R.remaining reader.new)) }
        ensures faults { IfErr result (λ fault. (fault ≡ ReadFault) ⊎ (fault ≡ NoMemory)) }
    {
        'pieces: loop {
            if self.advance_ready() {
                return Ok(true);
            }
            if self.is_ended() {
                return Ok(false);
            }
            self.read_more(reader)?;
        }
    }

    /// The line that was taken last.
    pub fn line(&self) -> &[u8]
        ensures { result.now ≡ self.now.line }
    {
        &self.buffer[self.start..self.end]
    }

    /// How many lines were taken, which is the number of the last one, counted from 1. Each took a
    /// byte that was read.
    pub fn number(&self) -> u64
        ensures number { result ≡ self.now.number }
        ensures taken { result + length self.now.ahead ≤ self.now.count }
        ensures read { self.now.count ≤ self.now.limit }
        ensures few { result ≤ MAX_INPUT_LIMIT }
    {
        self.number
    }

    /// Whether the input has ended.
    fn is_ended(&self) -> bool
        ensures ended { result ≡ self.now.ended }
        ensures within { self.now.count ≤ self.now.limit }
    {
        self.ended
    }

    /// Makes one read, which may find the end of the input. `Err` is as that of `advance`.
    fn read_more<R: Read>(&mut self, reader: &mut R) -> Result<(), StreamFault>
        requires { self.old.ended ≡ false }
        ensures more { OnOk result
            (ReadsMore self.old (R.remaining reader.old) self.new (R.remaining reader.new)) }
        ensures faults { IfErr result (λ fault. (fault ≡ ReadFault) ⊎ (fault ≡ NoMemory)) }
    {
        self.start = 0;
        self.end = 0;
        remove_front(&mut self.buffer, self.taken);
        self.taken = 0;
        let held = self.buffer.len();
        let mut piece = [0u8; PIECE];
        let more = read_piece(reader, self.count, self.limit, &mut piece, &mut self.buffer)?;
        self.count += self.buffer.len() - held;
        self.ended = !more;
        Ok(())
    }
}
