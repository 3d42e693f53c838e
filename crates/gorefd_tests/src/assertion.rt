//! Helpers of the tests. An assertion is a call here, since the macro takes a prover many steps and a call one.
ghost use Rattle.std.specs.Prelude.{IsTrue};

use base_files::FileText;
use std::alloc::Global;
use std::process::Abort;

/// Ends the test if the fact is false.
pub(crate) fn holds(rt: &impl Abort, fact: bool)
    ensures { IsTrue fact }
{
    assert!(rt; fact);
}

/// The text as the contents of a file.
pub(crate) fn file(rt: &impl Abort, alloc: Global, text: &[u8]) -> FileText {
    let bytes = text.to_vec(alloc).expect(rt, "memory");
    FileText::new(alloc, bytes).expect(rt, "memory")
}
