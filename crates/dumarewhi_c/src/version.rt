//! The version of the library.
ghost use Rattle.std.specs.Prelude.{◌≡◌};

/// 10000 for a major version, 100 for a minor one, 1 for a patch: 0.1.0.
const VERSION: u32 = 100;

/// The version of the library.
#[unsafe(no_mangle)]
pub extern "C" fn dm_version() -> u32
    ensures { result ≡ 100 }
{
    VERSION
}
