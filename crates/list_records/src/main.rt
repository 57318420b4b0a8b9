// Lists the records of a pack that it reads: offset, kind and body length, a line for each.
#![tactic(auto)]

ghost use Rattle.std.specs.Prelude.{◌≡◌, ◌<◌, ◌≤◌, length, replicate, take, IfOk};
ghost use Rattle.std.specs.Io.KnownBytes.{Consumes, IsAtEnd};
ghost use Rattle.buffer.specs.Text.{Wrote, write};
ghost use Rattle.list_records.specs.Lines.{record_at, field, line, cut_line, lines};
ghost use Rattle.list_records.specs.Added.{Added};

use std::io::{self, Read, Write};

// The kind and the body length of the record that starts at `at`, or none where it is cut.
fn record_at(pack: &[u8], at: usize) -> Option<(u32, usize)>
    requires { at ≤ length pack.now }
    ensures { result ≡ record_at pack.now at }
{
    if pack.len() - at < 6 {
        return None;
    }
    let n = buffer::little::u32_at(pack, at) as usize;
    if pack.len() - (at + 6) < n {
        return None;
    }
    let kind = buffer::little::u16_at(pack, at + 4);
    Some((kind, n))
}

// Writes `bytes` at `at`, and answers their end; or writes nothing where there is no room for all of them.
fn put_bytes(text: &mut [u8], at: usize, bytes: &[u8]) -> Option<usize>
    ensures { ◌≡◌ {A = Wrote} (record { answer = result; text = text.new }) (write text.old at bytes.now) }
{
    if text.len() < at {
        return None;
    }
    if text.len() - at < bytes.len() {
        return None;
    }
    let end = at + bytes.len();
    text[at..end].copy_from_slice(bytes);
    Some(end)
}

// Adds `n` and the byte behind it. Here and below: the end of what was added, or none where there is no room.
fn put_field(text: &mut [u8], at: usize, n: u64, last: u8) -> Option<usize>
    ensures { Added text.old at (field n last) text.new result }
{
    let end = buffer::decimal::put_decimal(text, at, n)?;
    if text.len() <= end {
        return None;
    }
    text[end] = last;
    Some(end + 1)
}

// Adds the line of a whole record; none where there is no room.
fn put_line(text: &mut [u8], at: usize, offset: usize, kind: u32, n: usize) -> Option<usize>
    ensures { Added text.old at (line offset kind n) text.new result }
{
    let a = put_field(text, at, offset as u64, b' ')?;
    let b = put_field(text, a, kind as u64, b' ')?;
    put_field(text, b, n as u64, b'\n')
}

// Adds the line of a cut record; none where there is no room.
fn put_cut(text: &mut [u8], at: usize, offset: usize) -> Option<usize>
    ensures { Added text.old at (cut_line offset) text.new result }
{
    let a = put_field(text, at, offset as u64, b' ')?;
    put_bytes(text, a, b"cut\n")
}

// Adds the lines of all records; none where there is no room.
fn put_lines(pack: &[u8], text: &mut [u8]) -> Option<usize>
    ensures { Added text.old 0 (lines pack.now) text.new result }
{
    let mut at = 0;
    let mut offset = 0;
    while offset < pack.len() {
        let Some((kind, n)) = record_at(pack, offset) else {
            return put_cut(text, at, offset);
        };
        at = put_line(text, at, offset, kind, n)?;
        offset = offset + 6 + n;
    }
    Some(at)
}

// Writes the lines of all records and zeros behind them, or only zeros where there is no room.
pub fn list(pack: &[u8], text: &mut [u8]) -> Option<usize>
    ensures { ◌≡◌ {A = Wrote} (record { answer = result; text = text.new }) (write (replicate (length text.old) 0) 0 (lines pack.now)) }
{
    let Some(end) = put_lines(pack, text) else {
        text.fill(0);
        return None;
    };
    buffer::zero::fill_from(text, end, 0);
    Some(end)
}

// Reads to the end of the input, or until the buffer is full; answers how many bytes were read. They stand at the buffer's front in their
// order, and where they are fewer than it has room for, nothing is left.
fn read_full<R: Read>(reader: &mut R, buf: &mut [u8]) -> io::Result<usize>
    ensures bound { IfOk result (λ n. n ≤ length buf.new) }
    ensures bytes { IfOk result (λ n. Consumes (R.remaining reader.old) (R.remaining reader.new) (take n buf.new)) }
    ensures whole { IfOk result (λ n. n < length buf.new → IsAtEnd (R.remaining reader.new)) }
{
    let mut done = 0;
    while done < buf.len() {
        let n = reader.read(&mut buf[done..])?;
        if n == 0 {
            return Ok(done);
        }
        done += n;
    }
    Ok(done)
}

fn main(rt: HostRuntime) -> io::Result<()> {
    let mut pack = [0u8; 65536];
    let n = read_full(&mut rt.stdin(), &mut pack)?;
    if pack.len() < n {
        return rt.stdout().write_all(b"too long\n");
    }
    let mut text = [0u8; 65536];
    match list(&pack[..n], &mut text) {
        Some(end) => rt.stdout().write_all(&text[..end]),
        None => rt.stdout().write_all(b"no room\n"),
    }
}
