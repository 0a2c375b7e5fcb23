// The version of the library for hosts in other languages.
// Made by tools/library.py from the crate exports_version, whose functions it calls.
#![tactic(auto)]

ghost use Rattle.std.specs.Prelude.{◌≡◌};
ghost use Rattle.exports_version.specs.Version.{version};

// The version that a host compares with its header's.
#[unsafe(no_mangle)]
pub extern "C" fn eiderwagon_version() -> u32
    ensures { result ≡ version }
{
    exports_version::eiderwagon_version()
}
