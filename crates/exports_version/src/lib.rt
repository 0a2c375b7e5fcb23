// The version of the library for hosts in other languages.
#![tactic(auto)]

ghost use Rattle.std.specs.Prelude.{◌≡◌};
ghost use Rattle.exports_version.specs.Version.{version};

// 0.1.0: a byte each for the three numbers.
const VERSION: u32 = 0x000100;

// The version that a host compares with its header's.
#[unsafe(no_mangle)]
pub extern "C" fn eiderwagon_version() -> u32
    ensures { result ≡ version }
{
    VERSION
}
