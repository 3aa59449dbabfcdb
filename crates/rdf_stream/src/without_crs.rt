// Lines without their CRs.

ghost use Rattle.std.specs.Prelude.{◌≡◌, ◌++◌, OnErr, OnOk};
ghost use Rattle.rdf_lines.specs.Canonical.{without_crs};
ghost use Rattle.rdf_lines.specs.WrittenBytes.{BeginsWith};

use memchr::memchr;
use rdf_lines::LineBuffer;
use std::alloc::{AllocError, Allocator};

/// Appends the lines without their CRs. Where a growth of memory is refused, it appends nothing.
pub(crate) fn put_without_crs<A: Allocator + Copy>(
    lines: &[u8],
    out: &mut LineBuffer<A>,
) -> Result<(), AllocError>
    ensures written { OnOk result (out.new ≡ out.old ++ without_crs lines.now) }
    ensures unchanged { OnErr result (out.new ≡ out.old) }
{
    let start = out.len();
    match put_runs(lines, out) {
        Ok(()) => Ok(()),
        Err(e) => {
            out.truncate(start);
            Err(e)
        }
    }
}

// Appends what stands between the CRs.
fn put_runs<A: Allocator + Copy>(lines: &[u8], out: &mut LineBuffer<A>) -> Result<(), AllocError>
    ensures written { OnOk result (out.new ≡ out.old ++ without_crs lines.now) }
    ensures grown { OnErr result (BeginsWith out.old out.new) }
{
    let mut rest = lines;
    while let Some(at) = memchr(b'\r', rest) {
        out.append(&rest[..at])?;
        rest = &rest[at..][1..];
    }
    out.append(rest)
}
