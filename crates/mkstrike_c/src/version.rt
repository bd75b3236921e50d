//! The release, for C.
ghost use Rattle.std.specs.Prelude.{◌≡◌};

/// The release, by its day: `MKSTRIKE_VERSION` of the header of this library.
const VERSION: u32 = 20_261_128;

/// Returns the release of this library.
#[unsafe(no_mangle)]
pub extern "C" fn proved_mkstrike_version() -> u32
    ensures { result ≡ 20261128 }
{
    VERSION
}
