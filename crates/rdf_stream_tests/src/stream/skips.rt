// Going on after bad lines, in a document that is cut.

use rdf_iri::Limits;
use rdf_stream::{Form, Job, convert_skipping};
use slow_devices::{parts_of, slow_drain};
use std::alloc::Global;

/// Good lines and bad ones, with each kind of line end; a byte order mark in front of one; and no end after the last.
const DOCUMENT: &[u8] =
    b"<a:s> <a:p> <a:o> .\n<a:s> <a:p> .\n# a comment\r\n<a:s> <a:p> \"\\q\" .\r\
    \xEF\xBB\xBF<a:s> <a:p> <a:o> .\n<a:s> <a:q> <a:o> .\n<a:s";

/// What is written of it.
const WRITTEN: &[u8] = b"<a:s> <a:p> <a:o> .\n<a:s> <a:q> <a:o> .\n";

/// What is put aside.
const ASIDE: &[u8] = b"# unexpected token at byte 32, line 2\n<a:s> <a:p> .\n\
    # no token at byte 59, line 4\n<a:s> <a:p> \"\\q\" .\r\
    # no token at byte 66, line 4\n\xEF\xBB\xBF<a:s> <a:p> <a:o> .\n\
    # no token at byte 109, line 6\n<a:s";

/// Whether the good lines are written and the bad ones put aside, where the document is cut there.
fn is_sifted(alloc: Global, cut: usize) -> bool {
    let Some(job) = Job::new(Form::NTriples, None, Limits::default()) else {
        return false;
    };
    let mut source = parts_of(DOCUMENT, cut, u64::MAX);
    let mut drain = slow_drain(alloc, 7, u64::MAX);
    let mut bad = slow_drain(alloc, 5, u64::MAX);
    match convert_skipping(alloc, job, &mut source, &mut drain, &mut bad) {
        Ok(summary) => {
            summary.quads == 2
                && summary.bad_lines == 4
                && drain.bytes.as_slice() == WRITTEN
                && bad.bytes.as_slice() == ASIDE
        }
        Err(_) => false,
    }
}

/// The first cut at which they are not, if there is one.
pub(crate) fn missifted(alloc: Global) -> Option<usize> {
    (0..=DOCUMENT.len()).find(|&cut| !is_sifted(alloc, cut))
}
