//! Copies standard input to standard output while it is UTF-8: what a reader of text has to do at least, to measure
//! readers beside.
#![tactic(auto)]

ghost use Rattle.std.specs.Prelude.{◌≤◌, length};

use simdutf8::compat::from_utf8;
use std::io;
use std::io::{Read, Write};
use std::process::ExitCode;

/// How many bytes are asked for at a time.
const PIECE_LEN: usize = 65536;

/// How many of the bytes come before a character that is cut or bad, and whether it is cut.
fn good_len(bytes: &[u8]) -> (usize, bool)
    ensures { result.0 ≤ length bytes.now }
{
    match from_utf8(bytes) {
        Ok(_) => (bytes.len(), true),
        Err(e) => (e.valid_up_to(), e.error_len().is_none()),
    }
}

/// Copies a text to its end, or to where it is none, and answers whether it was one.
fn copy_text<R: Read, W: Write>(
    reader: &mut R,
    writer: &mut W,
    piece: &mut [u8],
) -> Result<bool, io::Error> {
    let mut held = 0;
    for _ in 0..u64::MAX {
        let Some(room) = piece.get_mut(held..) else {
            return Ok(false);
        };
        let taken = reader.read(room)?;
        let len = held + taken;
        let (good, is_cut) = good_len(&piece[..len]);
        writer.write_all(&piece[..good])?;
        if !is_cut {
            return Ok(false);
        }
        if taken == 0 {
            return Ok(good == len);
        }
        piece.copy_within(good..len, 0);
        held = len - good;
    }
    Ok(false)
}

fn main(rt: HostRuntime) -> ExitCode {
    let mut input = rt.stdin();
    let mut output = rt.stdout();
    let mut piece = [0u8; PIECE_LEN];
    match copy_text(&mut input, &mut output, &mut piece) {
        Ok(true) => ExitCode::from(0),
        Ok(false) => ExitCode::from(1),
        Err(_) => ExitCode::from(3),
    }
}
