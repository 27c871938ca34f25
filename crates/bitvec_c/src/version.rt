//! The version: exports for callers in C. Written by `.ci/exports`.

ghost use Rattle.std.specs.Prelude.{◌≡◌};
ghost use Rattle.bitvec_call.specs.Version.{version};

use bitvec_call::version::VERSION;

/// Returns the version of the archive, to be compared with that of the header, `VERSION`.
#[unsafe(no_mangle)]
pub extern "C" fn bitvec_c_version() -> u32
    ensures { result ≡ version }
{
    VERSION
}
