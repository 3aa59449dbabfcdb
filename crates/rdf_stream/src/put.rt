// Puts whole texts into a drain.

ghost use Rattle.std.specs.Prelude.{◌≡◌, false, is_err, OnOk, OnErr};
ghost use Rattle.std.specs.Io.KnownBytes.{Appends};
ghost use Rattle.rdf_stream.specs.Devices.{AppendsFront};

use crate::devices::{Drain, Failed};

/// Puts all of the bytes, in as many calls as the drain needs.
pub fn put_all<D: Drain>(drain: &mut D, bytes: &[u8]) -> Result<(), Failed>
    requires live { D.has_failed drain.old ≡ false }
    ensures ok { OnOk result (Appends (D.contents drain.old) (D.contents drain.new) bytes.now) }
    ensures err { OnErr result (AppendsFront (D.contents drain.old) (D.contents drain.new) bytes.now) }
    ensures failed { D.has_failed drain.new ≡ is_err result }
{
    let mut rest = bytes;
    while !rest.is_empty() {
        let count = drain.put_some(rest)?;
        rest = &rest[count..];
    }
    Ok(())
}
